// The listing of an answer, line by line, into lent bytes.
#![tactic(auto)]

ghost use Rattle.std.specs.Prelude.{◌≡◌};
ghost use Rattle.listing.specs.Lines.{accept_line, block_line, refuse_line};
ghost use Rattle.listing.specs.Text.{Rendered, Writes};
ghost use Rattle.listing.specs.LineText.{text_of};

mod awaits;
mod text;

pub use awaits::Await;
use text::LentText;

// A line, and what it says.
#[derive(Clone, Copy, Debug, PartialEq, Eq)]
pub enum Line<'a> {
    // "accept ID blocks B awaits A load L"
    Accept {
        id: u32,
        blocks: usize,
        awaits: usize,
        load: u64,
    },
    // "block INDEX START END REACHABLE"
    Block {
        index: usize,
        start: u64,
        end: u64,
        reachable: u64,
    },
    // "await INSTRUCTION SLOT.."
    Await(Await<'a>),
    // "refuse NUMBER ID", the number as it is shown: this crate stands on no crate of the checks, and so has no `Refusal`
    Refuse {
        number: u64,
        id: u32,
    },
}

impl Line<'_> {
    // Answers how long the line is; it stands at the front of the text if it fits. This never fails, which no `Display` promises.
    pub fn render(&self, text: &mut [u8]) -> usize
        ensures { Rendered text.old text.new (text_of self.now) result }
    {
        let mut out = LentText { bytes: text, at: 0 };
        self.write(&mut out);
        out.at
    }

    // A line of its own, at the front.
    fn write(&self, out: &mut LentText)
        requires { out.old.at ≡ 0 }
        ensures { Writes out.old out.new (text_of self.now) }
    {
        match *self {
            Line::Accept {
                id,
                blocks,
                awaits,
                load,
            } => write_accept(out, id, blocks, awaits, load),
            Line::Block {
                index,
                start,
                end,
                reachable,
            } => write_block(out, index, start, end, reachable),
            Line::Await(line) => line.write(out),
            Line::Refuse { number, id } => write_refuse(out, number, id),
        }
    }
}

fn write_accept(out: &mut LentText, id: u32, blocks: usize, awaits: usize, load: u64)
    requires { out.old.at ≡ 0 }
    ensures { Writes out.old out.new (accept_line id blocks awaits load) }
{
    out.word("accept");
    out.number(id as u64);
    out.word(" blocks");
    out.number(blocks as u64);
    out.word(" awaits");
    out.number(awaits as u64);
    out.word(" load");
    out.number(load);
    out.word("\n");
}

fn write_block(out: &mut LentText, index: usize, start: u64, end: u64, reachable: u64)
    requires { out.old.at ≡ 0 }
    ensures { Writes out.old out.new (block_line index start end reachable) }
{
    out.word("block");
    out.number(index as u64);
    out.number(start);
    out.number(end);
    out.number(reachable);
    out.word("\n");
}

fn write_refuse(out: &mut LentText, number: u64, id: u32)
    requires { out.old.at ≡ 0 }
    ensures { Writes out.old out.new (refuse_line number id) }
{
    out.word("refuse");
    out.number(number);
    out.number(id as u64);
    out.word("\n");
}
