// The lowest and the highest of results.
ghost use Rattle.std.specs.Prelude.{◌≡◌, ◌≤◌, Bool, ℤ, length};
ghost use Rattle.meaning.specs.Limits.{least};
ghost use Rattle.meaning.specs.Extension.{at};
ghost use Rattle.meaning.specs.Values.{unbeaten};
ghost use Rattle.theory.specs.Extremes.{Beating};
ghost use Rattle.summary.specs.Structs.{done_of, done_summary};

use crate::Summary;
use outputs::inner::Quotients;

// The first result that none beats, and its index.
// No `min_by`, which reads a slice by an `Option` of a reference to a cell: the reason stands at `tap_at` of `taps`.
fn first<F: Fn(i64, i64) -> bool>(results: &[i64], beats: F) -> (usize, i64)
    requires some { least ≤ length results.now }
    requires callable { (x y : ℤ) → F.pre beats x y }
    ensures { (t : ℤ → ℤ → Bool) → Beating t → ((x y : ℤ) (r : Bool) → F.post beats x y r → r ≡ t x y) → (result.0 ≡ unbeaten t results.now) × (result.1 ≡ at results.now result.0) }
{
    let mut at = 0;
    let mut best = results[0];
    // by index: the first is the best to begin with
    for i in 1..results.len() {
        let z = results[i];
        if beats(z, best) {
            at = i;
            best = z;
        }
    }
    (at, best)
}

pub(crate) fn summary(quotients: Quotients) -> Summary
    requires { least ≤ length quotients.results.now }
    ensures { done_of result ≡ done_summary quotients.entry.divisor quotients.entry.results.now }
{
    let Quotients { results, divisor } = quotients;
    let (lowest_at, lowest) = first(results, |x: i64, y: i64| x < y);
    let (highest_at, highest) = first(results, |x: i64, y: i64| y < x);
    Summary {
        lowest: doubles::inner::ratio(lowest, divisor),
        highest: doubles::inner::ratio(highest, divisor),
        lowest_at,
        highest_at,
    }
}
