// A file's length, sum and table, and finding a section (file-2 to file-6, find-1, find-2, refusal-10 to refusal-13).
#![tactic(auto)]

ghost use Rattle.std.specs.Prelude.{◌≡◌, true, ◌&&◌, ◌+◌, ◌*◌, ◌≤◌, ◌<◌, length, eqb};
ghost use Rattle.tariff.specs.Tests.{is_accepted};
ghost use Rattle.sections.specs.Table.{length_right, sum_right, table_right, follow_to, body_start};
ghost use Rattle.sections.specs.Table.{section_count, kind_at, start_at, length_at, file_verdict};
ghost use Rattle.sections.specs.Find.{times_to, entry_to, just_once, part_of, part_start, find_verdict};
ghost use Rattle.sections.specs.Find.{section_of, section_start, part_extent};

use tariff::{Refusal, Verdict};

// Where a section lies in a file: its first byte, counted from the file's, and how many bytes it has.
#[derive(Clone, Copy)]
pub struct Extent {
    pub start: usize,
    pub length: usize,
}

// The entries of a table that its file has room for.
#[derive(Clone, Copy)]
struct Entries<'a> {
    file: &'a [u8],
    count: usize,
    ghost counted: { count ≡ section_count file.now },
    ghost few: { count ≤ 8 },
    ghost fit: { 12 + 12 * count ≤ length file.now },
}

impl Entries<'_> {
    // kept: the three parts of an entry are a function each, as the definitions are: each reads one word.

    // The kind of entry i.
    fn kind(self, i: usize) -> u32
        requires { i < self.count }
        ensures { result ≡ kind_at self.entry.file.now i }
    {
        words::word_at(self.file, 3 + 3 * i)
    }

    // Its start.
    fn start(self, i: usize) -> u32
        requires { i < self.count }
        ensures { result ≡ start_at self.entry.file.now i }
    {
        words::word_at(self.file, 4 + 3 * i)
    }

    // Its length.
    fn length(self, i: usize) -> u32
        requires { i < self.count }
        ensures { result ≡ length_at self.entry.file.now i }
    {
        words::word_at(self.file, 5 + 3 * i)
    }

    // Do the bodies follow each other in table order without gaps, with lengths that are multiples of 4, the last
    // ending the file?
    #[tactic(auto, unfolding(crate::specs::Table::follow_to, crate::specs::Table::body_start))]
    fn follow(self) -> bool
        ensures { result ≡ (follow_to self.entry.file.now self.entry.count
            && eqb (body_start self.entry.file.now self.entry.count) (length self.entry.file.now)) }
    {
        let mut right = true;
        let mut at = 12 + 12 * self.count;
        for i in 0..self.count {
            let start = self.start(i) as usize;
            let len = self.length(i) as usize;
            right = right & (start == at) & (len % 4 == 0);
            at += len;
        }
        right & (at == self.file.len())
    }

    // How many are of the kind.
    #[tactic(auto, using(crate::proofs::Finding::times_more), unfolding(crate::specs::Find::times_to))]
    fn times(self, kind: u32) -> usize
        ensures { result ≡ times_to self.entry.file.now kind self.entry.count }
    {
        let mut times = 0;
        for i in 0..self.count {
            if self.kind(i) == kind {
                times += 1;
            }
        }
        times
    }

    // The last that is of the kind.
    #[tactic(auto, using(crate::proofs::Finding::entry_more), unfolding(crate::specs::Find::entry_to))]
    fn last_of(self, kind: u32) -> usize
        ensures { result ≡ entry_to self.entry.file.now kind self.entry.count }
    {
        let mut entry = 0;
        for i in 0..self.count {
            if self.kind(i) == kind {
                entry = i;
            }
        }
        entry
    }
}

// 10: is the length 12 to 65,536, a multiple of 4 and the first word?
#[tactic(auto, unfolding(crate::specs::Table::length_right))]
fn length_right(file: &[u8]) -> bool
    ensures { result ≡ length_right file.now }
{
    let n = file.len();
    12 <= n && n <= 65536 && n % 4 == 0 && words::word_at(file, 0) as usize == n
}

// 11: is the wrapping sum of all words 0?
#[tactic(auto, unfolding(crate::specs::Table::sum_right))]
fn sum_right(file: &[u8]) -> bool
    ensures { result ≡ sum_right file.now }
{
    words::sum(file) == 0
}

// 12: do count and table keep the rules?
#[tactic(auto, unfolding(crate::specs::Table::table_right))]
fn table_right(file: &[u8]) -> bool
    requires { 12 ≤ length file.now }
    ensures { result ≡ table_right file.now }
{
    let count = words::word_at(file, 2) as usize;
    if count < 1 {
        return false;
    }
    if count > 8 {
        return false;
    }
    if 12 + 12 * count > file.len() {
        return false;
    }
    Entries { file, count }.follow()
}

// What a file is declined for, whatever is looked for in it: 10, 11, 12.
#[tactic(auto, using(crate::proofs::Table::at_least), unfolding(crate::specs::Table::file_verdict, crate::specs::Table::file_reasons, tariff::specs::Tests::verdict_of))]
pub fn file_verdict(file: &[u8]) -> Verdict
    ensures { result ≡ file_verdict file.now }
{
    if !length_right(file) {
        return Err(Refusal::FileLength);
    }
    if !sum_right(file) {
        return Err(Refusal::FileSum);
    }
    if !table_right(file) {
        return Err(Refusal::FileTable);
    }
    Ok(())
}

// The entries of a file that 10 to 12 do not decline.
#[tactic(auto, using(crate::proofs::Table::keeps))]
fn entries_of(file: &[u8]) -> Entries<'_>
    requires { is_accepted (file_verdict file.now) ≡ true }
    ensures { result.file.now ≡ file.now }
{
    Entries {
        file,
        count: words::word_at(file, 2) as usize,
    }
}

// kept: a kind of section is a number, since the C interface finds a section of any kind; 1 is the plan, 2 the calls.

// kept: that the file is not declined is a clause of `is_once`, `part_extent` and `part`, which take any lent file and
// are public; a type in its place would ask more of who calls them.

// Is the kind there just once, in a file that 10 to 12 do not decline?
#[tactic(auto, unfolding(crate::specs::Find::just_once))]
pub fn is_once(file: &[u8], kind: u32) -> bool
    requires { is_accepted (file_verdict file.now) ≡ true }
    ensures { result ≡ just_once file.now kind }
{
    entries_of(file).times(kind) == 1
}

// Where in such a file the part lies that its one entry of the kind names.
#[tactic(auto, using(crate::proofs::Table::keeps, crate::proofs::Finding::lies), unfolding(crate::specs::Find::part_start, crate::specs::Find::part_length))]
pub fn part_extent(file: &[u8], kind: u32) -> Extent
    requires { (is_accepted (file_verdict file.now) ≡ true) × (just_once file.now kind ≡ true) }
    ensures { result ≡ part_extent file.now kind }
{
    let entries = entries_of(file);
    let i = entries.last_of(kind);
    Extent {
        start: entries.start(i) as usize,
        length: entries.length(i) as usize,
    }
}

// That part: the bytes, and where they lie. A reference's `ptr` is the piece of memory that it refers to and the place
// in it, so the part is the caller's own file.
#[tactic(auto, using(crate::proofs::Table::keeps, crate::proofs::Finding::part_within, crate::proofs::Finding::part_bytes))]
pub fn part(file: &[u8], kind: u32) -> &[u8]
    requires { (is_accepted (file_verdict file.now) ≡ true) × (just_once file.now kind ≡ true) }
    ensures bytes { result.now ≡ part_of file.now kind }
    ensures place { (result.ref_ptr.0 ≡ file.entry.ref_ptr.0)
        × (result.ref_ptr.1 ≡ file.entry.ref_ptr.1 + part_start file.now kind) }
{
    let Extent { start, length } = part_extent(file, kind);
    &file[start..start + length]
}

// What finding a section is declined for: 10, 11, 12, then 13 if the kind isn't there just once.
#[tactic(auto, using(crate::proofs::Finding::find_then))]
pub fn find_verdict(file: &[u8], kind: u32) -> Verdict
    ensures { result ≡ find_verdict file.now kind }
{
    file_verdict(file)?;
    if !is_once(file, kind) {
        return Err(Refusal::NotOnce);
    }
    Ok(())
}

// The section of a kind, as a part of the lent file; an empty part on a refusal.
#[tactic(auto, using(crate::proofs::Finding::found_both), unfolding(crate::specs::Find::section_of, crate::specs::Find::section_start))]
pub fn find(file: &[u8], kind: u32) -> &[u8]
    ensures bytes { result.now ≡ section_of file.now kind }
    ensures place { (result.ref_ptr.0 ≡ file.entry.ref_ptr.0)
        × (result.ref_ptr.1 ≡ file.entry.ref_ptr.1 + section_start file.now kind) }
{
    match find_verdict(file, kind) {
        Ok(()) => part(file, kind),
        Err(_) => &file[0..0],
    }
}
