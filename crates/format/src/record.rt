// A record of a sheet: a length of two bytes, which counts the bytes after it, a kind of two bytes, and the body.
ghost use Rattle.std.specs.Prelude.{◌≡◌, true, MatchOption};
ghost use Rattle.format.specs.Heads.{short};
ghost use Rattle.format.specs.Answers.{IsRecord};

use crate::bytes;

#[derive(Clone, Copy, PartialEq, Eq, Debug)]
pub struct Record<'a> {
    pub kind: u16,
    pub body: &'a [u8],
    // where the next record begins
    pub next: usize,
}

// The record at an offset, or none where the sheet is too short for it.
#[tactic(auto, unfolding(crate::specs::Heads::short))]
pub fn record_at<'a>(s: &'a [u8], at: usize) -> Option<Record<'a>>
    ensures { MatchOption result (short s.now at ≡ true) (IsRecord s.now at) }
{
    if s.len() <= at || s.len() - at < 4 {
        return None;
    }
    let length = bytes::u16_at(s, at) as usize;
    if length < 2 || s.len() - at < 2 + length {
        return None;
    }
    Some(Record {
        kind: bytes::u16_at(s, at + 2),
        // cut by its length: cut at `next`, its length is counted again from the two offsets
        body: &s[at + 4..][..length - 2],
        next: at + 2 + length,
    })
}
