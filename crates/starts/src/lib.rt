// The set that block 0 starts from, in a row of words: the sheet's own parameters, and those of the added words that are slots of it.
#![tactic(auto)]

ghost use Rattle.std.specs.Prelude.{◌≡◌, ◌*◌, ◌/◌, ◌+◌, ◌≤◌, length};
ghost use Rattle.sheet.specs.Decode.{parts_of};
ghost use Rattle.starts.specs.Starts.{cut_at, Joins, Starts};

use instructions::checked::Sheet;
use instructions::sets;

// The row becomes the set. Words that `added` lacks count as zero, words and bits past the slots are not looked at.
pub fn insert_all(sheet: &Sheet<'_>, added: &[u64], row: &mut [u64])
    requires { sheet.now.script.slots ≤ 64 * length row.old }
    ensures { Starts (parts_of sheet.now.bytes.now) added.now (length row.old) row.new }
{
    sets::insert_parameters(sheet, row);
    join_added(added, sheet.script.slots, row);
}

// The row takes in the added slots below the slot count, and loses any other that is not: `join` takes whole words, and the last one is cut after it.
fn join_added(added: &[u64], slots: usize, row: &mut [u64])
    requires { (slots ≤ 65536) × (slots ≤ 64 * length row.old) }
    ensures { Joins slots added.now row.old row.new }
{
    let n = slots.div_ceil(64).min(added.len());
    bitset::join(row, &added[..n]);
    cut(slots, row);
}

// The word in which the slots end keeps the bits of slots.
fn cut(slots: usize, row: &mut [u64])
    requires { (slots + 63) / 64 ≤ length row.old }
    ensures { row.new ≡ cut_at slots row.old }
{
    if slots % 64 != 0 {
        row[slots / 64] %= 1 << (slots % 64);
    }
}
