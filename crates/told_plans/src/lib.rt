// What the planner tells C and Rust of a plan that it was to write: the lent answer's numbers, with the end
// place among them. Document 02, Wish 1.
#![tactic(auto)]

ghost use Rattle.std.specs.Prelude.{◌≡◌};
ghost use Rattle.told_plans.specs.PlanNumbers.{written_told, changed_told};

use planner::Stop;
use table::Refusal;

// Of a table that was written, or refused.
pub fn told_written(w: Result<usize, Refusal>) -> [u32; 16]
    ensures { result ≡ written_told w }
{
    told_changed(w.map_err(|why| Stop { why, passes: 0 }))
}

// Of a plan that was written as changed, or refused; the passes are those of a forcing that refused.
pub fn told_changed(c: Result<usize, Stop>) -> [u32; 16]
    ensures { result ≡ changed_told c }
{
    match c {
        Ok(end) => told::fields_of(0, 0, 1, 0, 0, 0, 0, end),
        Err(Stop { why, passes }) => {
            told::fields_of(why.number, why.place, 0, 0, passes, 0, 0, 0)
        }
    }
}
