// What the slots of a sheet that passed weigh, 64 of them in a word.
ghost use Rattle.std.specs.Prelude.{◌≡◌, ◌≤◌};
ghost use Rattle.instructions.specs.Slots.{SlotsStand};
ghost use Rattle.load.specs.Counting.{weights_at};

use format::bytes;
use instructions::sets::SlotWord;

// The physical byte of a unit slot. Such a slot and a never slot (0) hold nothing. The byte stays a number, as beside `HOST_HANDLE` of instructions:
// few of its values have a name.
pub const UNIT: u8 = 1;

// The weights of n slots whose records stand from an offset on: a bit is set where the slot weighs. Not one function with `host_word` of instructions:
// that one's test and step come from one reading of the record, and as a closure of both it would be this loop's whole body.
pub fn weight_word(s: &[u8], first: usize, n: usize) -> SlotWord
    requires { (SlotsStand s.now first n) × (n ≤ 64) }
    ensures { result ≡ weights_at s.now first n }
{
    let mut bits = 0;
    let mut next = first;
    for k in 0..n {
        bits |= u64::from(s[next + 4] > UNIT) << k;
        next += 2 + bytes::u16_at(s, next) as usize;
    }
    SlotWord { bits, next }
}
