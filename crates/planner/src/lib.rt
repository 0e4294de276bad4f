// From a standard deviation to a plan's radius and edge weight.
#![tactic(auto)]

ghost use Rattle.std.specs.Prelude.{◌≡◌};
ghost use Rattle.meaning.specs.Planner.{plan_for};
ghost use Rattle.planner.specs.Structs.{planned_of};

use plan::Refusal;

mod rule;
mod testing;

// Radius and edge weight of the plan found.
#[derive(Clone, Copy)]
pub struct Planned {
    pub radius: u64,
    pub edge: u64,
}

impl Planned {
    // in hundredths
    pub const MAX_SIGMA: u64 = 25600;
}

// Radius and edge weight by the rule, for so many passes with this inner weight: no other edge weight is nearer to the one that gives just this deviation.
pub fn plan_for(sigma_hundredths: u64, passes: u64, inner: u64) -> Result<Planned, Refusal>
    ensures { planned_of result ≡ plan_for sigma_hundredths passes inner }
{
    testing::allowed(sigma_hundredths, passes, inner)?;
    let radius = rule::radius(sigma_hundredths, passes);
    let edge = rule::edge(sigma_hundredths, passes, inner, radius);
    // An edge as heavy as the rest: the same taps are one radius more and no edge.
    if edge == inner {
        let radius = radius + 1;
        let edge = 0;
        return Ok(Planned { radius, edge });
    }
    Ok(Planned { radius, edge })
}
