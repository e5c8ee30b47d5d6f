// The little-endian u32 words of a slice of bytes, and their wrapping sum (file-1, file-3, form-2).
#![tactic(auto)]

ghost use Rattle.std.specs.Prelude.{◌≡◌, ◌+◌, ◌*◌, ◌≤◌, ◌++◌, length, drop};
ghost use Rattle.words.specs.Words.{word, with_word, bytes_of, wrapped_sum, closing_word};

// Word number i.
pub fn word_at(s: &[u8], i: usize) -> u32
    requires { 4 * i + 4 ≤ length s.now }
    ensures { result ≡ word s.now i }
{
    let at = 4 * i;
    u32::from_le_bytes([s[at], s[at + 1], s[at + 2], s[at + 3]])
}

// Writes word number i.
pub fn put_word(s: &mut [u8], i: usize, w: u32)
    requires { 4 * i + 4 ≤ length s.old }
    ensures { s.new ≡ with_word s.old i w }
{
    let at = 4 * i;
    s[at..at + 4].copy_from_slice(&w.to_le_bytes());
}

// Writes words from the start of a part on; its bytes after them stay.
#[tactic(auto, using(crate::proofs::Written::put_more), unfolding(crate::specs::Words::bytes_of))]
pub fn put_words(s: &mut [u8], ws: &[u32])
    requires { 4 * length ws.now ≤ length s.old }
    ensures { s.new
        ≡ bytes_of ws.now ++ drop (4 * length ws.now) s.old }
{
    for (i, w) in ws.iter().enumerate() {
        put_word(s, i, *w);
    }
}

// The wrapping 32-bit sum of all words.
#[tactic(auto, using(crate::proofs::Read::sum_more), unfolding(crate::specs::Words::sum_to, crate::specs::Words::wrapped_sum))]
pub fn sum(s: &[u8]) -> u32
    ensures { result ≡ wrapped_sum s.now }
{
    let mut total: u32 = 0;
    for i in 0..s.len() / 4 {
        total = total.wrapping_add(word_at(s, i));
    }
    total
}

// The word that makes the wrapping sum 0 where the others' sum is `rest`.
pub fn solve(rest: u32) -> u32
    ensures { result ≡ closing_word rest }
{
    0u32.wrapping_sub(rest)
}
