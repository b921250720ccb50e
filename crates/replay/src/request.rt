// Reading a line.
use crate::call::Call;
use budget::{FlowBudget, Limits};
use std::str;
use std::str::Split;

// A call, and how much is to be lent to it.
#[derive(Clone, Copy, PartialEq, Eq, Debug)]
pub struct Request<'a> {
    pub call: Call<'a>,
    pub records: usize,
    pub sets: usize,
    pub scratch: usize,
}

impl<'a> Request<'a> {
    // What stands behind a name: the budget, the limits if they are handed in, the lengths and the sheet, each after one blank. The sheet's bytes
    // are put into the room. Whether there are limits is known from the front of the line, before there is anything that an `Option` could hold.
    pub fn read(text: &[u8], is_within: bool, room: &'a mut [u8]) -> Option<Request<'a>> {
        let mut fields = str::from_utf8(text).ok()?.split(' ');
        let budget = FlowBudget {
            work: number(&mut fields)?,
            retained: number(&mut fields)?,
        };
        let limits = if is_within {
            Some(limits(&mut fields)?)
        } else {
            None
        };
        let records = number(&mut fields)? as usize;
        let sets = number(&mut fields)? as usize;
        let scratch = number(&mut fields)? as usize;
        let sheet = bytes(fields.next()?, room)?;
        if fields.next().is_some() {
            return None;
        }
        Some(Request {
            call: Call {
                sheet,
                budget,
                limits,
            },
            records,
            sets,
            scratch,
        })
    }
}

// A name: 1 to 31 letters, digits, `-` or `_`.
pub fn name(word: &[u8]) -> Option<&str> {
    let is_name = matches!(word.len(), 1..=31) && word.iter().all(|b| is_of_name(*b));
    if is_name {
        str::from_utf8(word).ok()
    } else {
        None
    }
}

fn is_of_name(b: u8) -> bool {
    b.is_ascii_alphanumeric() || b == b'-' || b == b'_'
}

// A decimal number with no sign.
pub fn number(fields: &mut Split<'_, char>) -> Option<u64> {
    let digits = fields.next()?;
    if digits.starts_with('+') {
        return None;
    }
    digits.parse().ok()
}

fn limits(fields: &mut Split<'_, char>) -> Option<Limits> {
    Some(Limits {
        work: number(fields)?,
        state: number(fields)?,
        facts: number(fields)?,
    })
}

// The bytes that digits stand for, in the room, if there is enough of it. `.` stands for none.
fn bytes<'a>(digits: &str, room: &'a mut [u8]) -> Option<&'a [u8]> {
    if digits == "." {
        return Some(&[]);
    }
    if digits.is_empty() {
        return None;
    }
    let out = room.get_mut(..digits.len() / 2)?;
    hex::decode_to_slice(digits, out).ok()?;
    Some(out)
}
