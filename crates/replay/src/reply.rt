// The lines that are printed.
use answers::Answer;
use budget::Limits;
use std::{fmt, io};

// For a line that was not read.
pub fn unread(rt: &impl Print, name: &str) -> io::Result<()> {
    println!(rt; "{name} ?")
}

// What a call answered and left, with the limits of one that has them.
#[derive(Clone, Copy, PartialEq, Eq, Debug)]
pub struct Reply<'a> {
    pub name: &'a str,
    pub answer: Answer,
    pub limits: Option<Limits>,
    pub blocks: &'a [u64],
    pub sets: &'a [u64],
    pub scratch: &'a [u64],
}

impl fmt::Display for Reply<'_> {
    fn fmt<W: fmt::Write>(&self, f: &mut fmt::Formatter<W>) -> fmt::Result {
        let (number, id, blocks, awaits, budget) = match self.answer {
            Ok(a) => (0, a.id, a.blocks, a.awaits, a.budget),
            Err(e) => (e.why.number(), e.id, 0, 0, e.budget),
        };
        let (name, work, retained) = (self.name, budget.work, budget.retained);
        write!(
            f,
            "{name} {number} {id} {blocks} {awaits} {work} {retained}"
        )?;
        if let Some(limits) = self.limits {
            write!(f, " {} {} {}", limits.work, limits.state, limits.facts)?;
        }
        let left_over = self.scratch.iter().filter(|word| **word != 0).count();
        write!(
            f,
            " |{} |{} | {left_over}",
            Words(self.blocks),
            Words(self.sets)
        )
    }
}

// Words in hexadecimal, each after a blank.
#[derive(Clone, Copy, PartialEq, Eq, Debug)]
struct Words<'a>(&'a [u64]);

impl fmt::Display for Words<'_> {
    fn fmt<W: fmt::Write>(&self, f: &mut fmt::Formatter<W>) -> fmt::Result {
        for word in self.0 {
            write!(f, " {word:x}")?;
        }
        Ok(())
    }
}
