// Doubles as samples.
ghost use Rattle.std.specs.Prelude.{◌≡◌, true, map, length};
ghost use Rattle.std.specs.Float.Ieee.{to_signed};
ghost use Rattle.meaning.specs.Limits.{max_bound};
ghost use Rattle.meaning.specs.Refusals as R;
ghost use Rattle.meaning.specs.Values as meant;
ghost use Rattle.plan.specs.Structs.{answer_of};
ghost use Rattle.samples.specs.Taking.{Takable};

use crate::inner;
use plan::inner::outside;
use plan::{Plan, Refusal};

// There is no plan, and so no product that could be too large.
pub(crate) fn allowed(bound: u64, doubles: &[f64], samples: usize) -> Result<(), Refusal>
    ensures { answer_of result ≡ R.first_of (meant.double_rows bound doubles.now samples) }
{
    let n = doubles.len();
    let bad_size = outside(Plan::LEAST, Plan::MAX_LENGTH, n as u64);
    refusals::inner::sizes_allowed(bound, 0, bad_size, samples != n)?;
    inner::doubles_allowed(bound, doubles)
}

// A double that is accepted is a whole number that an i32 holds.
fn sample_of(x: f64) -> i32
    requires { meant.takes max_bound x ≡ true }
    ensures { result ≡ to_signed 31 x }
{
    inner::whole_of(x) as i32
}

pub(crate) fn take_into(doubles: &[f64], samples: &mut [i32])
    requires { Takable doubles.now (length samples.old) }
    ensures { samples.new ≡ map (to_signed 31) doubles.now }
{
    cells::inner::map_into(doubles, samples, sample_of);
}
