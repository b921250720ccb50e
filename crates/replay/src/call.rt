// A call of `verify` or of `verify_within`.
use crate::reply::Reply;
use budget::{FlowBudget, Limits};
use std::io;

// What is handed in. A call with limits is one of `verify_within`.
#[derive(Clone, Copy, PartialEq, Eq, Debug)]
pub struct Call<'a> {
    pub sheet: &'a [u8],
    pub budget: FlowBudget,
    pub limits: Option<Limits>,
}

// The words that are lent.
pub struct Lent<'a> {
    pub blocks: &'a mut [u64],
    pub sets: &'a mut [u64],
    pub scratch: &'a mut [u64],
}

impl Call<'_> {
    // Calls on words that hold garbage, and prints what the call answers and leaves.
    pub fn answer(self, rt: &impl Print, name: &str, lent: Lent) -> io::Result<()> {
        let Lent {
            blocks,
            sets,
            scratch,
        } = lent;
        garble(blocks);
        garble(sets);
        garble(scratch);
        let (answer, limits) = match self.limits {
            None => {
                let a = flow::verify(self.sheet, self.budget, blocks, sets, scratch);
                (a, None)
            }
            Some(limits) => {
                let a = flow::verify_within(self.sheet, self.budget, limits, blocks, sets, scratch);
                (a.answer, Some(a.limits))
            }
        };
        let reply = Reply {
            name,
            answer,
            limits,
            blocks,
            sets,
            scratch,
        };
        println!(rt; "{reply}")
    }
}

// Fills words with garbage, another in each: multiples of an odd number.
fn garble(words: &mut [u64]) {
    let mut garbage = 0u64;
    for word in words {
        garbage = garbage.wrapping_add(11400714819323198485);
        *word = garbage;
    }
}
