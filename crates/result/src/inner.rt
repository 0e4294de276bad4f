// The result at one place: the samples within reach, each by its weight.
ghost use Rattle.std.specs.Prelude.{◌≡◌, pos};
ghost use Rattle.algebra.specs.Sum.{sum};
ghost use Rattle.meaning.specs.Extension.{fold};
ghost use Rattle.meaning.specs.Smoothing as S;
ghost use Rattle.plan.specs.Structs.{stages_of};
ghost use Rattle.taps.specs.Lent.{Whole};
ghost use Rattle.result.specs.Shares.{share_in, Summable, Pointable};

use plan::Plan;
use refusals::inner::{Span, within_reach};
use taps::inner::{weight, with_taps};

// The result at n of samples that are not refused. It writes nothing, so no cells go with the taps.
pub fn result(plan: Plan, samples: &[i32], n: usize) -> i64
    requires { Pointable (stages_of plan) n samples.now }
    ensures { result ≡ S.result fold (stages_of plan) samples.now (pos n) }
{
    with_taps(plan, &mut [], |taps, _| by_taps(plan, taps, samples, n))
}

// The same, by the plan's taps.
fn by_taps(plan: Plan, taps: &[i64], samples: &[i32], n: usize) -> i64
    requires pointable { Pointable (stages_of plan) n samples.now }
    requires whole { Whole (stages_of plan) taps.now }
    ensures { result ≡ S.result fold (stages_of plan) samples.now (pos n) }
{
    let span = within_reach(samples.len(), n, plan.reach() as usize);
    summed(taps, samples, n, span)
}

// The samples in a span, each by its weight in the result at n.
fn summed(taps: &[i64], samples: &[i32], n: usize, span: Span) -> i64
    requires { Summable taps.now samples.now n span.start span.end }
    ensures { result ≡ sum span.end (share_in taps.now samples.now n) }
{
    let mut s: i64 = 0;
    // by index: a sample's weight goes by its place
    for p in span.start..span.end {
        s += weight(taps, samples.len(), n, p) * i64::from(samples[p]);
    }
    s
}
