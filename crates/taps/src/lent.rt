// The taps of a plan, in arrays of their own: room for them is asked of no caller.
ghost use Rattle.std.specs.Prelude.{ℤ, ◌≡◌, List};
ghost use Rattle.std.proofs.Common.{Bor, MutBor};
ghost use Rattle.meaning.specs.Bounds.{AcceptedPlan};
ghost use Rattle.plan.specs.Structs.{stages_of};
ghost use Rattle.taps.specs.Lent.{Whole};

use crate::inner::{MOST_TAPS, tap_count, taps_into};
use plan::Plan;

// Answers what f makes of the plan's taps, lent as just so many. `cells` are lent on to f, which may write them.
// They are an argument: of a slice that a closure captures and writes, a proof knows the length alone afterwards.
pub fn with_taps<A, F: FnOnce(&[i64], &mut [i64]) -> A>(plan: Plan, cells: &mut [i64], f: F) -> A
    requires accepted { AcceptedPlan (stages_of plan) }
    requires callable { (t : Bor (List ℤ)) (c : MutBor (List ℤ)) → Whole (stages_of plan) t.now → c.now ≡ cells.old → F.pre f t c }
    ensures { (t : Bor (List ℤ)) × (c : MutBor (List ℤ)) × (left : MutBor (List ℤ)) × Whole (stages_of plan) t.now × (c.now ≡ cells.old) × F.post f t c result left × (left.now ≡ cells.new) }
{
    let count = tap_count(plan);
    let mut taps = [0i64; MOST_TAPS];
    let mut other = [0i64; MOST_TAPS];
    let front = &mut taps[..count];
    taps_into(plan, front, &mut other[..count]);
    f(front, cells)
}
