// A sheet examined: the judging of its script, and the sets buffer as it is left.
#![tactic(auto)]

ghost use Rattle.std.specs.Prelude.{◌≡◌, Ok};
ghost use Rattle.budget.specs.Budget.{counted};
ghost use Rattle.sheet.specs.Decode.{parts_of};
ghost use Rattle.sheet.specs.Scripts.{checked_of};
ghost use Rattle.sizes.specs.Sizes.{answer_words};
ghost use Rattle.starts.specs.Starts.{parameter_with};
ghost use Rattle.examine.specs.Examine.{Examines};
ghost use Rattle.examine.specs.Stages.{zeros, cut_at, turned_away, taken_as, Acceptable};

use budget::{FlowBudget, Limits};
use format::refusal::Refusal;
use instructions::checked::{CheckedSheet, Sheet};
use judge::Judged;
use sizes::Layout;

// A sheet that is accepted: the function's id, the layout of scratch, how many awaits are reached, and the budget as charged.
#[derive(Clone, Copy, PartialEq, Eq, Debug)]
pub struct Examined {
    pub id: u32,
    pub layout: Layout,
    pub awaits: usize,
    pub budget: FlowBudget,
}

// Why a sheet is refused, with the function's id, and the budget as charged.
#[derive(Clone, Copy, PartialEq, Eq, Debug)]
pub struct Refused {
    pub why: Refusal,
    pub id: u32,
    pub budget: FlowBudget,
}

// The sheet checks, then the judging, with the slots of `added` as parameters beside the sheet's own (words that it lacks count as zero, and what is
// no slot is not looked at), and with each limit at most today's. After a refusal the sets buffer is zero; after acceptance it holds the answer and
// then zeros, and scratch the blocks. The caller clears scratch. `records` is how many block records are lent.
pub fn examine(
    sheet: &[u8],
    added: &[u64],
    limits: Limits,
    budget: FlowBudget,
    s: &mut [u64],
    t: &mut [u64],
    records: usize,
) -> Result<Examined, Refused>
    ensures { Examines sheet.now (parameter_with (parts_of sheet.now) added.now) (counted limits) records budget s.old s.new t.old t.new result }
{
    match CheckedSheet::check(sheet) {
        Err(e) => Err(refuse(t, e.why, e.id, budget)),
        Ok(checked) => passed(&checked.sheet, added, limits, budget, s, t, records),
    }
}

// The same of a sheet that passed the checks: for an entry that asks more of the script before it is judged.
pub fn passed(
    sheet: &Sheet<'_>,
    added: &[u64],
    limits: Limits,
    budget: FlowBudget,
    s: &mut [u64],
    t: &mut [u64],
    records: usize,
) -> Result<Examined, Refused>
    requires { checked_of sheet.now.bytes.now ≡ Ok sheet.now.script }
    ensures { Examines sheet.now.bytes.now (parameter_with (parts_of sheet.now.bytes.now) added.now) (counted limits) records budget s.old s.new t.old t.new result }
{
    let id = sheet.script.id;
    match judge::judge(sheet, added, s, t, records, limits.counted(), budget) {
        Err(e) => Err(refuse(t, e.why, id, e.budget)),
        Ok(judged) => Ok(accept(t, id, judged)),
    }
}

// An acceptance: of the sets buffer, what lies past the answer is cleared.
fn accept(t: &mut [u64], id: u32, judged: Judged) -> Examined
    requires { Acceptable judged.layout judged.awaits t.old }
    ensures answer { result ≡ taken_as id judged }
    ensures kept { t.new ≡ cut_at (answer_words judged.layout judged.awaits) t.old }
{
    let end = judged.layout.answer_words(judged.awaits);
    t[end..].fill(0);
    Examined {
        id,
        layout: judged.layout,
        awaits: judged.awaits,
        budget: judged.budget,
    }
}

// A refusal: the sets buffer is cleared.
pub fn refuse(t: &mut [u64], why: Refusal, id: u32, budget: FlowBudget) -> Refused
    ensures answer { result ≡ turned_away why id budget }
    ensures cleared { t.new ≡ zeros t.old }
{
    t.fill(0);
    Refused { why, id, budget }
}
