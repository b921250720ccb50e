// The walk over the slot records and over the instruction records: the first bad one decides.
ghost use Rattle.std.specs.Prelude.{◌≡◌};
ghost use Rattle.sheet.specs.Scripts.{host_words};
ghost use Rattle.sheet.specs.Code.{code_from, no_code};
ghost use Rattle.sheet.specs.Stages.{WalksSlots, WalksCode};

use format::fields::Counts;
use format::refusal::Refusal;
use format::types::Tag;
use operands::kind::Kind;
use reader::Reader;

// The instruction records so far: the kind of the last one, if there is any, and how many are awaits.
#[derive(Clone, Copy, PartialEq, Eq, Debug)]
pub struct Code {
    pub last: Option<Kind>,
    pub awaits: usize,
}

// So many slot records: each turn takes the plain ones that stand there, and then one of any type.
fn any_slots(reader: &mut Reader<'_>, slots: usize) -> Result<(), Refusal>
    ensures { WalksSlots slots tt reader.old reader.new result }
{
    let mut left = slots;
    while 0 < left {
        left -= reader.plain_slots(Tag::Reference as usize, left);
        if left == 0 {
            break;
        }
        reader.slot()?;
        left -= 1;
    }
    Ok(())
}

// So many slot records, a word of slots at a time: first the plain ones that are no host slots, as most are, then the rest. It answers how many
// words of slots there are up to the last that may be a host slot.
pub fn walk_slots(reader: &mut Reader<'_>, slots: usize) -> Result<usize, Refusal>
    ensures { WalksSlots slots (host_words reader.old.sheet.now reader.old.at slots 0 0) reader.old reader.new result }
{
    let mut host_words = 0;
    for word in 0..slots.div_ceil(64) {
        let n = (slots - 64 * word).min(64);
        let plain = reader.plain_slots(Tag::Other as usize, n);
        if plain < n {
            any_slots(reader, n - plain)?;
            host_words = word + 1;
        }
    }
    Ok(host_words)
}

// All instruction records.
pub fn walk_code(reader: &mut Reader<'_>, counts: Counts) -> Result<Code, Refusal>
    ensures { WalksCode counts (code_from reader.old.sheet.now reader.old.at counts.instructions no_code) reader.old reader.new result }
{
    let mut code = Code {
        last: None,
        awaits: 0,
    };
    for _ in 0..counts.instructions {
        let kind = reader.instruction(counts)?;
        code.awaits += usize::from(kind.is_await());
        code.last = Some(kind);
    }
    Ok(code)
}
