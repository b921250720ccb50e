// Case n: a sheet that is too long for a line, with id 7, 65,473 slots, which take 1,024 words a set, and blocks of one instruction each.
ghost use Rattle.std.specs.Prelude.{◌≤◌, length};

use crate::call::{Call, Lent};
use crate::{reply, request};
use budget::FlowBudget;
use std::io::Write;
use std::{io, str};

const SLOTS: u32 = 65473;

const MOST_BLOCKS: u32 = 2049;

// Two heads, six bytes a slot and eight an instruction.
const MOST_BYTES: usize = 20 + 6 * SLOTS as usize + 8 * MOST_BLOCKS as usize;

// Answers for the number of blocks that the text says, and nothing else. No block record and no word of sets is lent, and 8,196 words of scratch: four
// for each of 2,049 instructions.
pub fn answer(rt: &impl Print, name: &str, text: &[u8]) -> io::Result<()> {
    let Some(blocks) = blocks(text) else {
        return reply::unread(rt, name);
    };
    let mut room = [0; MOST_BYTES];
    let call = Call {
        sheet: sheet(&mut room, blocks)?,
        budget: FlowBudget {
            work: 0,
            retained: 0,
        },
        limits: None,
    };
    let lent = Lent {
        blocks: &mut [],
        sets: &mut [],
        scratch: &mut [0; 4 * MOST_BLOCKS as usize],
    };
    call.answer(rt, name, lent)
}

fn blocks(text: &[u8]) -> Option<u32> {
    let mut fields = str::from_utf8(text).ok()?.split(' ');
    let count = u32::try_from(request::number(&mut fields)?).ok()?;
    let is_asked = fields.next().is_none() && matches!(count, 1..=MOST_BLOCKS);
    if is_asked { Some(count) } else { None }
}

// The sheet, at the front of the room.
fn sheet(room: &mut [u8], blocks: u32) -> io::Result<&[u8]> {
    let mut rest = &mut room[..];
    write_head(&mut rest, blocks)?;
    let mut code = slots(rest);
    write_code(&mut code, blocks)?;
    let left = code.len();
    let end = room.len().saturating_sub(left);
    Ok(room.get(..end).unwrap_or_default())
}

// The function record, and a parameter record with no parameter.
fn write_head(out: &mut impl Write, blocks: u32) -> io::Result<()> {
    let counts = [7, SLOTS, blocks].map(|n: u32| n.to_le_bytes());
    write_record(out, 256, counts.as_flattened())?;
    write_record(out, 257, &[])
}

// The slot records, each of kind 258 with physical byte 3 and no type; it answers what lies behind them. They are put as they are: written by
// `write_record` they took more than three quarters of the work of a line.
fn slots(out: &mut [u8]) -> &mut [u8] {
    let end = out.len().min(6 * SLOTS as usize);
    let (slots, code) = out.split_at_mut(end);
    for slot in slots.chunks_exact_mut(6) {
        slot.copy_from_slice(&[4, 0, 2, 1, 3, 0]);
    }
    code
}

// The code: jumps to the next, and last a return of nothing.
fn write_code(out: &mut impl Write, blocks: u32) -> io::Result<()> {
    for next in 1..blocks {
        write_record(out, 38, &next.to_le_bytes())?;
    }
    write_record(out, 40, &u32::MAX.to_le_bytes())
}

// A record: how long it is from its kind on, its kind, and its body.
fn write_record(out: &mut impl Write, kind: u16, body: &[u8]) -> io::Result<()>
    requires { length body.now ≤ 12 }
{
    let length = 2 + body.len() as u16;
    out.write_all(&length.to_le_bytes())?;
    out.write_all(&kind.to_le_bytes())?;
    out.write_all(body)
}
