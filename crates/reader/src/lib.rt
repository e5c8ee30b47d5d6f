// A reader over a calls section, thin over `decode` (reader-1, reader-2, form-7).
#![tactic(auto)]

ghost use Rattle.std.specs.Prelude.{◌≡◌, ◌-◌, ◌/◌, length};
ghost use Rattle.std.specs.Iterator.{at_most};
ghost use Rattle.reader.specs.Calls.{decoded, position_after};
ghost use Rattle.reader.specs.Handed.{HandsOutCalls};

// The calls section, and the position in bytes of the next call.
#[derive(Drop)]
pub struct Reader<'a> {
    pub section: &'a [u8],
    pub at: usize,
}

// A call as it stands in the section, unchecked.
#[derive(Clone, Copy, PartialEq, Eq)]
pub struct CodedCall {
    pub code: u32,
    pub number: u32,
}

// The 8 bytes at a position as code and number, or none where fewer remain.
pub fn decode(s: &[u8], at: usize) -> Option<CodedCall>
    ensures { result ≡ decoded s.now at }
{
    let rest = s.get(at..)?;
    if rest.len() < 8 {
        return None;
    }
    let code = words::word_at(rest, 0);
    let number = words::word_at(rest, 1);
    Some(CodedCall { code, number })
}

// The position after that call, or the same one where fewer than 8 bytes remain.
pub fn after(s: &[u8], at: usize) -> usize
    ensures { result ≡ position_after s.now at }
{
    if decode(s, at).is_some() { at + 8 } else { at }
}

impl Reader<'_> {
    // A reader at the section's start.
    pub fn new(section: &[u8]) -> Reader<'_>
        ensures { (result.section ≡ section.entry) × (result.at ≡ 0) }
    {
        Reader { section, at: 0 }
    }

    // The reader's next call; the reader stays.
    pub fn peek(&self) -> Option<CodedCall>
        ensures { result ≡ decoded self.now.section.now self.now.at }
    {
        decode(self.section, self.at)
    }
}

impl Iterator for Reader<'_> {
    type Item = CodedCall;

    ghost next_gives = { λ r call moved. (call ≡ decoded r.section.now r.at)
        × (moved.section ≡ r.section)
        × (moved.at ≡ position_after r.section.now r.at) };

    ghost remaining = { λ r. at_most ((length r.section.now - r.at) / 8) };

    // The reader's next call, and the reader moved past it; none at the end, where the reader stays.
    fn next(&mut self) -> Option<CodedCall> {
        let call = decode(self.section, self.at)?;
        self.at = after(self.section, self.at);
        Some(call)
    }
}

// Asked again and again from the section's start, a reader hands out the section's calls in order, and then none.
pub fn hands_out_calls()
    ensures { HandsOutCalls }
{}
