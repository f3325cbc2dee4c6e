// What limits the share of one other task in task k's sum, apart from q and from what is kept of a candidate.
#![tactic(auto)]

ghost use Rattle.std.specs.Prelude.{◌≡◌, ◌+◌, ltb};
ghost use Rattle.model.specs.Bound.{work_in};
ghost use Rattle.table.specs.Table.{policy_of};
ghost use Rattle.window.specs.Window.{Windowed};
ghost use Rattle.cap_for.specs.CapFor.{cap_for};

// The cap of a share besides q: none is 1,000,000, since q is never larger. E(k,i) is the work in a window of
// k's deadline.
#[tactic(auto, using(crate::proofs::Lines::cap_lines))]
pub fn cap_for(
    policy: u32,
    fk: u32,
    fi: u32,
    higher: bool,
    inverse: u64,
    rest: u32,
    cost: u32,
    due: u32,
) -> u32
    requires { Windowed inverse rest cost due }
    ensures { result ≡ cap_for (policy_of policy) (ltb fi fk) higher (work_in (rest + cost) cost due) }
{
    if fi < fk {
        return 1000000;
    }
    if policy == 0 {
        return window::work(inverse, rest, cost, due);
    }
    if higher { 1000000 } else { 0 }
}
