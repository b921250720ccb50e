// The set of parameters and the set of host slots of a sheet that passed, each in a row of words.
ghost use Rattle.std.specs.Prelude.{◌≡◌, ◌*◌, ◌≤◌, length};
ghost use Rattle.sheet.specs.Decode.{parts_of};
ghost use Rattle.instructions.specs.Slots.{SlotsStand};
ghost use Rattle.instructions.specs.Sets.{host_word_at, parameter_row, host_row};

use crate::checked::Sheet;
use crate::slot;
use operands::bytes;

// A bit for each of some slots, and where the record behind them begins.
#[derive(Clone, Copy, PartialEq, Eq, Debug)]
pub struct SlotWord {
    pub bits: u64,
    pub next: usize,
}

// The row becomes the set of parameters. The row is the caller's, so that each contract here says how long it has to be.
pub fn insert_parameters(sheet: &Sheet<'_>, row: &mut [u64])
    requires { sheet.now.script.slots ≤ 64 * length row.old }
    ensures { row.new ≡ parameter_row (parts_of sheet.now.bytes.now) (length row.old) }
{
    row.fill(0);
    let script = sheet.script;
    let end = script.params_at + 4 * script.params;
    for field in sheet.bytes[script.params_at..end].as_chunks::<4>().0 {
        bitset::insert(row, bytes::number(*field) as usize);
    }
}

// The bits of those of n slots, whose records stand from an offset on, that are host slots. The word is gathered in a local, so that no record
// waits for the store of the one before. `weight_word` of load has another test and a shorter step, and the closure of both would be the whole body.
fn host_word(s: &[u8], first: usize, n: usize) -> SlotWord
    requires { (SlotsStand s.now first n) × (n ≤ 64) }
    ensures { result ≡ host_word_at s.now first n }
{
    let mut bits = 0;
    let mut next = first;
    for k in 0..n {
        let slot = slot::host_at(s, next);
        bits |= u64::from(slot.host) << k;
        next = slot.next;
    }
    SlotWord { bits, next }
}

// The row becomes the set of host slots. Behind the words of the script there is none.
pub fn insert_hosts(sheet: &Sheet<'_>, row: &mut [u64])
    requires { sheet.now.script.slots ≤ 64 * length row.old }
    ensures { row.new ≡ host_row (parts_of sheet.now.bytes.now) (length row.old) }
{
    let mut at = sheet.script.slots_at;
    let mut left = sheet.script.slots.min(64 * sheet.script.host_words);
    for word in row.iter_mut() {
        let n = left.min(64);
        let hosts = host_word(sheet.bytes, at, n);
        *word = hosts.bits;
        at = hosts.next;
        left -= n;
    }
}
