// replay: lines that each name a call of `verify`, from standard input; what the call answers and leaves, a line for each, to standard output.
//
// A line is `NAME WORK RETAINED RECORDS SETS SCRATCH HEX`: the budget, how many block records, words of sets and words of scratch are lent, and
// the sheet in hexadecimal, `.` for none. The lent words hold garbage before the call. `n-built BLOCKS` has case n's sheet built here.
// `within: NAME WORK RETAINED WORK-LIMIT STATE-LIMIT FACTS-LIMIT RECORDS SETS SCRATCH HEX` is a call of `verify_within`, with its limits behind the budget;
// its answer has the limits as they come back, behind the budget too.
// Lines that begin with `#` and empty lines are skipped. The answer is
// `NAME NUMBER ID BLOCKS AWAITS WORK RETAINED | block words | set words | words of scratch that are not zero`, the words in hexadecimal; or
// `NAME ?` where the line cannot be read or asks for more than there is, `? ?` where it has no name.
#![tactic(auto)]

mod built;
mod call;
mod reply;
mod request;

use call::{Call, Lent};
use request::Request;
use std::io;
use std::io::Read;

// Input of more bytes is answered as one line that has no name.
const MOST_BYTES: usize = 1048576;

fn main(rt: HostRuntime) -> io::Result<()> {
    let mut room = [0; MOST_BYTES + 1];
    answer_input(&rt, &mut room)
}

// Reads the input into the room, and answers it line by line. Behind a reference the array's length is known without its million bytes, which
// the checker could not hold.
fn answer_input(rt: &(impl Input + Print), room: &mut [u8; MOST_BYTES + 1]) -> io::Result<()> {
    let mut input = rt.reader().take(room.len() as u64);
    let n = io::copy(&mut input, &mut &mut room[..])? as usize;
    if n > MOST_BYTES {
        return println!(rt; "? ?");
    }
    for line in room[..n].split(|b| *b == b'\n') {
        answer_line(rt, line)?;
    }
    Ok(())
}

// Answers one line, or skips it. No name begins with the word `within:`.
fn answer_line(rt: &impl Print, line: &[u8]) -> io::Result<()> {
    if line.is_empty() || line.starts_with(b"#") {
        return Ok(());
    }
    let within = line.strip_prefix(b"within: ");
    let mut parts = within.unwrap_or(line).splitn(2, |b| *b == b' ');
    let Some(name) = parts.next().and_then(request::name) else {
        return println!(rt; "? ?");
    };
    let text = parts.next().unwrap_or_default();
    if name == "n-built" && within.is_none() {
        return built::answer(rt, name, text);
    }
    answer_request(rt, name, text, within.is_some())
}

// Lends the start of each buffer, as long as is asked: at most 64 block records, 512 words of sets and 8,192 words of scratch.
fn answer_request(rt: &impl Print, name: &str, text: &[u8], is_within: bool) -> io::Result<()> {
    let mut sheet = [0; 4096];
    let mut blocks = [0; 6 * 64];
    let mut sets = [0; 512];
    let mut scratch = [0; 8192];
    let Some(request) = Request::read(text, is_within, &mut sheet) else {
        return reply::unread(rt, name);
    };
    let (Some(blocks), Some(sets), Some(scratch)) = (
        blocks.get_mut(..request.records.saturating_mul(6)),
        sets.get_mut(..request.sets),
        scratch.get_mut(..request.scratch),
    ) else {
        return reply::unread(rt, name);
    };
    let lent = Lent {
        blocks,
        sets,
        scratch,
    };
    request.call.answer(rt, name, lent)
}
