// An await of a listing: which instruction it is, and the set of slots that are live there.
ghost use Rattle.std.specs.Prelude.{◌≤◌, length};

use crate::Line;
use crate::text::LentText;

#[derive(Clone, Copy, Debug, PartialEq, Eq)]
pub struct Await<'a> {
    instruction: u64,
    slots: &'a [u64],
    // so that the line's length fits
    ghost few: { length slots.now ≤ 1024 },
}

impl<'a> Await<'a> {
    ghost use Rattle.std.specs.Prelude.{◌≡◌, ◌+◌, get_or, MatchOption};
    ghost use Rattle.listing.specs.Lines.{await_line, slots_at};
    ghost use Rattle.listing.specs.Text.{Held};
    ghost use Rattle.listing.specs.Awaits.{await_text};

    // The await whose words begin at word `at` of the sets: its instruction, then w words of slots. None where they do not all stand there.
    pub fn at(sets: &'a [u64], at: usize, w: usize) -> Option<Await<'a>>
        ensures { MatchOption result (¬ (Held sets.now w at))
            (λ a. Held sets.now w at × (await_text a ≡ await_line (get_or sets.now at 0) (slots_at sets.now w (at + 1)))) }
    {
        if w > 1024 {
            return None;
        }
        let (instruction, rest) = sets.get(at..)?.split_first()?;
        let slots = rest.get(..w)?;
        Some(Await {
            instruction: *instruction,
            slots,
        })
    }
}

impl Await<'_> {
    ghost use Rattle.std.specs.Prelude.{◌≡◌, ◌+◌, ◌*◌, ◌^◌};
    ghost use Rattle.listing.specs.Lines.{spaced};
    ghost use Rattle.listing.specs.Text.{AwaitRendered, Writes};
    ghost use Rattle.listing.specs.Awaits.{await_text, slots_of};

    // Renders the await that `at` gives, and answers how long its line is; 0, with nothing written, where there is none.
    pub fn render_at(sets: &[u64], at: usize, w: usize, text: &mut [u8]) -> usize
        ensures { AwaitRendered sets.now w at text.old text.new result }
    {
        match Await::at(sets, at, w) {
            Some(line) => Line::Await(line).render(text),
            None => 0,
        }
    }

    // The whole line.
    pub(crate) fn write(&self, out: &mut LentText)
        requires { out.old.at ≡ 0 }
        ensures { Writes out.old out.new (await_text self.now) }
    {
        out.word("await");
        out.number(self.instruction);
        self.write_slots(out);
        out.word("\n");
    }

    // The slots, ascending.
    fn write_slots(&self, out: &mut LentText)
        requires { out.old.at ≤ 2 ^ 20 }
        ensures writes { Writes out.old out.new (spaced (slots_of self.now.slots.now)) }
        ensures few { out.new.at ≤ out.old.at + 21 * (64 * 1024) }
    {
        for slot in 0..64 * self.slots.len() {
            if bitset::contains(self.slots, slot) {
                out.number(slot as u64);
            }
        }
    }
}
