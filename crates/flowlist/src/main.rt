// flowlist: a sheet from standard input, its listing to standard output. Memory is lent as document 01 says: 4,096 words of scratch, 1,024 of sets,
// 256 block records; the budget is zero.
#![tactic(auto)]

ghost use Rattle.std.specs.Prelude.{◌≤◌, ◌^◌};

use answers::Accepted;
use budget::FlowBudget;
use format::refusal::Refusal;
use listing::{Await, Line};
use std::io;
use std::io::Read;
use std::process::ExitCode;

// A sheet of more bytes is refused, with 10.
const MOST_BYTES: usize = 16384;

// Room for a line: more than the longest that a sheet of so many bytes has.
const TEXT_BYTES: usize = 262144;

fn main(rt: HostRuntime) -> io::Result<ExitCode> {
    let mut room = [0; MOST_BYTES + 1];
    let mut input = rt.reader().take(room.len() as u64);
    let n = io::copy(&mut input, &mut &mut room[..])? as usize;
    let sheet = room.get(..n).unwrap_or_default();
    let mut printer = Printer {
        rt: &rt,
        text: [0; TEXT_BYTES],
    };
    match printer.show_sheet(sheet) {
        Ok(()) => Ok(ExitCode::SUCCESS),
        Err(e) => {
            let _ = eprintln!(rt; "flowlist: standard output: {e}");
            Ok(ExitCode::FAILURE)
        }
    }
}

// Where the lines go, and the bytes that each is put into first.
#[derive(Drop)]
struct Printer<'a, R: Print> {
    rt: &'a R,
    text: [u8; TEXT_BYTES],
}

impl<R: Print> Printer<'_, R> {
    // The line of the whole, then a line a block, then a line an await; none after one that can't be written.
    fn show_sheet(&mut self, sheet: &[u8]) -> io::Result<()> {
        if sheet.len() > MOST_BYTES {
            return self.refuse(Refusal::NoRoom, 0);
        }
        let mut blocks = [0u64; 6 * 256];
        let mut sets = [0; 1024];
        let mut scratch = [0; 4096];
        let budget = FlowBudget {
            work: 0,
            retained: 0,
        };
        match flow::verify(sheet, budget, &mut blocks, &mut sets, &mut scratch) {
            Err(refused) => self.refuse(refused.why, refused.id),
            Ok(
                Accepted {
                    id,
                    blocks: count,
                    awaits,
                    ..
                },
            ) => {
                let load = load_of(sheet, &sets, count, awaits);
                self.show(Line::Accept {
                    id,
                    blocks: count,
                    awaits,
                    load,
                })?;
                self.show_blocks(&blocks, count)?;
                self.show_awaits(&sets, count, awaits, width(sheet))
            }
        }
    }

    fn refuse(&mut self, refusal: Refusal, id: u32) -> io::Result<()> {
        self.show(Line::Refuse {
            number: refusal.number(),
            id,
        })
    }

    fn show_blocks(&mut self, blocks: &[u64], count: usize) -> io::Result<()> {
        for (index, block) in blocks.chunks_exact(6).take(count).enumerate() {
            self.show(Line::Block {
                index,
                start: block[0],
                end: block[1],
                reachable: block[2],
            })?;
        }
        Ok(())
    }

    // Behind the two sets of each block, w words each, lie the awaits: an instruction and a set each.
    fn show_awaits(
        &mut self,
        sets: &[u64],
        blocks: usize,
        awaits: usize,
        w: usize,
    ) -> io::Result<()>
        requires { w ≤ 2 ^ 26 }
    {
        let first = blocks.saturating_mul(2 * w);
        let rows = sets.get(first..).unwrap_or_default();
        for row in rows.chunks_exact(1 + w).take(awaits) {
            let n = Await::render_at(row, 0, w, &mut self.text);
            self.write_line(n)?;
        }
        Ok(())
    }

    // Writes a line.
    fn show(&mut self, line: Line) -> io::Result<()> {
        let n = line.render(&mut self.text);
        self.write_line(n)
    }

    // Writes the line of n bytes at the front of the text; none where n is 0.
    fn write_line(&self, n: usize) -> io::Result<()> {
        match self.text.get(..n) {
            Some(bytes) => self.rt.write_all(bytes),
            None => Err(io::ErrorKind::WriteZero.into()),
        }
    }
}

// The load of an answer. That of a sheet which was accepted is never refused.
fn load_of(sheet: &[u8], sets: &[u64], blocks: usize, awaits: usize) -> u64 {
    load::load(sheet, sets, blocks, awaits).map_or(0, |loaded| loaded.load)
}

// The words of a set, by the slot count in the function record. A sheet that was accepted has that record, so 0 is never shown.
fn width(sheet: &[u8]) -> usize
    ensures { result ≤ 2 ^ 26 }
{
    match sheet.get(8..).and_then(|rest| rest.first_chunk()) {
        Some(bytes) => (u32::from_le_bytes(*bytes) as usize).div_ceil(64),
        None => 0,
    }
}
