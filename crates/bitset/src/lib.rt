// Sets of slots in rows of u64 words: the bit helpers of flow.rs, and what the engine does to whole rows.
//
// Slot i of a set is bit i % 64 of its word i / 64. A row is a slice of words. Of two rows in one buffer, which cannot be lent at once, each is named
// by where it begins.
#![tactic(auto)]

ghost use Rattle.std.specs.Prelude.{◌≡◌, ◌+◌, ◌≤◌, ◌<◌, ◌/◌, length};
ghost use Rattle.bitset.specs.Sets.{member};
ghost use Rattle.bitset.specs.Operations.{inserted, removed, common, within, meet, join, difference, same};
ghost use Rattle.bitset.specs.Rows.{row, patched, Apart};

// Whether the slot is in the set: `contains` of flow.rs.
#[tactic(auto, using(crate::proofs::Digits::tested), unfolding(crate::specs::Sets::member))]
pub fn contains(set: &[u64], slot: usize) -> bool
    requires { slot / 64 < length set.now }
    ensures { result ≡ member set.now slot }
{
    set[slot / 64] & (1 << (slot % 64)) != 0
}

// Puts the slot into the set: `insert` of flow.rs.
#[tactic(auto, using(crate::proofs::Digits::mask), unfolding(crate::specs::Operations::inserted))]
pub fn insert(set: &mut [u64], slot: usize)
    requires { slot / 64 < length set.old }
    ensures { set.new ≡ inserted set.old slot }
{
    set[slot / 64] |= 1 << (slot % 64);
}

// Takes the slot out of the set, as `check_points` of flow.rs does with an output.
#[tactic(auto, using(crate::proofs::Digits::mask), unfolding(crate::specs::Operations::removed))]
pub fn remove(set: &mut [u64], slot: usize)
    requires { slot / 64 < length set.old }
    ensures { set.new ≡ removed set.old slot }
{
    set[slot / 64] &= !(1 << (slot % 64));
}

// The set becomes another of as many words. It is a loop and not std's `copy_from_slice`, which calls `memmove`: an archive for C asks its host for
// `memset` alone.
#[tactic(auto, using(crate::proofs::ZipLaws::progress_none, crate::proofs::ZipLaws::copy_more, crate::proofs::ZipLaws::copy_all))]
pub fn copy(set: &mut [u64], other: &[u64])
    requires { length set.old ≡ length other.now }
    ensures { set.new ≡ other.now }
{
    for (k, word) in set.iter_mut().enumerate() {
        *word = other[k];
    }
}

// The set keeps what is also in another, which has as many words at least. `copy`, `meet`, `join`, `same`, `common` and `within` are each a loop of one
// line: one function over the operation on a word would be that line again in each, as a closure, and what the closure promises besides.
#[tactic(auto, using(crate::proofs::ZipLaws::progress_none, crate::proofs::ZipLaws::meet_more, crate::proofs::ZipLaws::meet_all))]
pub fn meet(set: &mut [u64], other: &[u64])
    requires { length set.old ≤ length other.now }
    ensures { set.new ≡ meet set.old other.now }
{
    for (k, word) in set.iter_mut().enumerate() {
        *word &= other[k];
    }
}

// The set takes in what is in another, which has as many words at most.
#[tactic(auto, using(crate::proofs::ZipLaws::progress_none, crate::proofs::ZipLaws::join_more, crate::proofs::ZipLaws::join_all))]
pub fn join(set: &mut [u64], other: &[u64])
    requires { length other.now ≤ length set.old }
    ensures { set.new ≡ join set.old other.now }
{
    for (k, word) in other.iter().enumerate() {
        set[k] |= *word;
    }
}

// The row at d becomes the row at s of the same slice. This and the next two are of no two slices, as both rows cannot be lent at once.
pub fn copy_within(words: &mut [u64], d: usize, s: usize, w: usize)
    requires { (d + w ≤ length words.old) × (s + w ≤ length words.old) × Apart d s w }
    ensures { words.new ≡ patched words.old d (row words.old s w) }
{
    for k in 0..w {
        words[d + k] = words[s + k];
    }
}

// The row at d takes in what is in the row at s of the same slice.
pub fn join_within(words: &mut [u64], d: usize, s: usize, w: usize)
    requires { (d + w ≤ length words.old) × (s + w ≤ length words.old) × Apart d s w }
    ensures { words.new ≡ patched words.old d (join (row words.old d w) (row words.old s w)) }
{
    for k in 0..w {
        words[d + k] |= words[s + k];
    }
}

// The row at d loses what is in the row at i and then takes in what is in the row at j, all of the same slice, in one pass.
pub fn replace_within(words: &mut [u64], d: usize, i: usize, j: usize, w: usize)
    requires { (d + w ≤ length words.old) × (i + w ≤ length words.old) × (j + w ≤ length words.old) × Apart d i w × Apart d j w }
    ensures { words.new ≡ patched words.old d (join (difference (row words.old d w) (row words.old i w)) (row words.old j w)) }
{
    for k in 0..w {
        words[d + k] = (words[d + k] & !words[i + k]) | words[j + k];
    }
}

// Whether two sets of as many words hold the same. It looks at all of them, so that the loop runs in vectors.
pub fn same(a: &[u64], b: &[u64]) -> bool
    requires { length a.now ≡ length b.now }
    ensures { result ≡ same a.now b.now }
{
    let mut differ = 0;
    for (k, word) in a.iter().enumerate() {
        differ |= *word ^ b[k];
    }
    differ == 0
}

// Whether two sets of as many words have a slot in common.
pub fn common(a: &[u64], b: &[u64]) -> bool
    requires { length a.now ≡ length b.now }
    ensures { result ≡ common a.now b.now }
{
    let mut both = 0;
    for (k, word) in a.iter().enumerate() {
        both |= *word & b[k];
    }
    both != 0
}

// Whether each slot of the first set is in the second, which has as many words.
pub fn within(a: &[u64], b: &[u64]) -> bool
    requires { length a.now ≡ length b.now }
    ensures { result ≡ within a.now b.now }
{
    let mut lacking = 0;
    for (k, word) in a.iter().enumerate() {
        lacking |= (*word & b[k]) ^ *word;
    }
    lacking == 0
}
