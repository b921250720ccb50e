// What is known of a sheet after the checks.
use format::refusal::Refusal;

// A sheet that passed. It holds offsets and counts and no slices, so that it borrows nothing: `instructions::checked::Sheet` holds the bytes beside it, and
// what is read there is read by an offset that a loop carries on.
#[derive(Clone, Copy, PartialEq, Eq, Debug)]
pub struct Script {
    // the function's id, how many slots it has, and how many instructions
    pub id: u32,
    pub slots: usize,
    pub count: usize,
    // where the first parameter number stands, and how many there are
    pub params_at: usize,
    pub params: usize,
    // where the slot records begin, and where the instruction records do
    pub slots_at: usize,
    pub code_at: usize,
    // no slot behind these first words of slots is a host slot
    pub host_words: usize,
    // how many instructions are awaits, reached or not
    pub awaits: usize,
}

// Why a sheet is refused, with the function's id: 0 until the function record has passed 1 to 3.
#[derive(Clone, Copy, PartialEq, Eq, Debug)]
pub struct Refused {
    pub why: Refusal,
    pub id: u32,
}
