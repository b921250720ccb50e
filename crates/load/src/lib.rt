// The load of an answer: the slots of its await sets that hold something, summed over all of them. All memory is only read.
#![tactic(auto)]

pub mod weights;

ghost use Rattle.std.specs.Prelude.{◌≡◌, ◌+◌, ◌*◌, ◌/◌, ◌≤◌, ◌<◌, length, take, drop, MatchOption};
ghost use Rattle.instructions.specs.Slots.{SlotsStand};
ghost use Rattle.load.specs.Load.{saturated, loaded_of};
ghost use Rattle.load.specs.Counting.{load_below, word_load};

use format::refusal::Refusal;
use sheet::script::Refused;

// The function's id and the load.
#[derive(Clone, Copy, PartialEq, Eq, Debug)]
pub struct Loaded {
    pub id: u32,
    pub load: u64,
}

// Any bytes, any words and any numbers of blocks and awaits. A sheet that does not pass the checks is refused, and so are, with 10, sets that have
// fewer words than such an answer takes.
pub fn load(sheet: &[u8], sets: &[u64], blocks: usize, awaits: usize) -> Result<Loaded, Refused>
    ensures { result ≡ loaded_of sheet.now sets.now blocks awaits }
{
    let script = sheet::check(sheet)?;
    let id = script.id;
    let w = script.slots.div_ceil(64);
    let Some(entries) = await_entries(sets, w, blocks, awaits) else {
        return Err(Refused {
            why: Refusal::NoRoom,
            id,
        });
    };
    let load = count(sheet, script.slots_at, script.slots, entries, w);
    Ok(Loaded { id, load })
}

// The words of the awaits, each an instruction and then a set, behind the sets of the blocks; or none if there are not so many words.
fn await_entries(sets: &[u64], w: usize, blocks: usize, awaits: usize) -> Option<&[u64]>
    requires { w ≤ 1024 }
    ensures { MatchOption result (length sets.now < blocks * (2 * w) + awaits * (1 + w)) (λ r. (blocks * (2 * w) + awaits * (1 + w) ≤ length sets.now) × (r.now ≡ take (awaits * (1 + w)) (drop (blocks * (2 * w)) sets.now))) }
{
    let first = blocks.checked_mul(2 * w)?;
    let words = awaits.checked_mul(1 + w)?;
    sets.get(first..)?.get(..words)
}

// The load of the awaits' sets: a word of 64 slots at a time, in all of them.
fn count(s: &[u8], at: usize, slots: usize, entries: &[u64], w: usize) -> u64
    requires { (SlotsStand s.now at slots) × (w ≡ (slots + 63) / 64) × (w ≤ 1024) }
    ensures { result ≡ saturated (load_below s.now at entries.now w 0 (length entries.now / (1 + w)) slots) }
{
    let mut total = 0;
    let mut next = at;
    let mut left = slots;
    for j in 0..w {
        let n = left.min(64);
        let word = weights::weight_word(s, next, n);
        total = count_word(entries, word.bits, j, w, total);
        next = word.next;
        left -= n;
    }
    total
}

// A total with the slots added that word j of each await's set has in common with the weights.
fn count_word(entries: &[u64], weights: u64, j: usize, w: usize, from: u64) -> u64
    requires { (j < w) × (w ≤ 1024) }
    ensures { result ≡ saturated (from + word_load entries.now weights w 0 (length entries.now / (1 + w)) j) }
{
    let mut total = from;
    for entry in entries.chunks_exact(1 + w) {
        let common = entry[1 + j] & weights;
        total = total.saturating_add(u64::from(common.count_ones()));
    }
    total
}
