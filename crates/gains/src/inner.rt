// An edit of results by taps. Two walks over the results within reach: the first tests, the second writes.
ghost use Rattle.std.specs.Prelude.{◌≡◌, ◌||◌, [], ◌∷◌, ◌*◌, ◌≤◌, ◌<◌, length, nat_abs, ◌+ℤ◌};
ghost use Rattle.meaning.specs.Limits.{max_result};
ghost use Rattle.meaning.specs.Refusals as R;
ghost use Rattle.theory.specs.Places.{picked};
ghost use Rattle.plan.specs.Structs.{answer_of, value_or};
ghost use Rattle.gains.specs.Gains.{gain_in, refused_in, gained_in, count_in, Gainable, Writable, ChangesIn};

use plan::Refusal;
use refusals::inner::{Span, within_reach};
use taps::inner::weight;

// Sample p of len changes by `change`, and results gain by the taps. There is room for every gain.
#[derive(Clone, Copy)]
pub struct Edit<'a> {
    pub taps: &'a [i64],
    pub len: usize,
    pub p: usize,
    pub change: i64,
    ghost gainable: { Gainable taps.now len p change },
}

// Has a result, or would it get, a size above the limit? The sum is formed only where the first has not.
fn too_large(limit: u64, old: i64, gain: i64) -> bool
    requires { (limit ≤ max_result) × (nat_abs gain ≤ 2 * max_result) }
    ensures { result ≡ R.above limit old || R.above limit (old +ℤ gain) }
{
    limit < old.unsigned_abs() || limit < (old + gain).unsigned_abs()
}

impl Edit<'_> {
    // What the result at n gains.
    fn gain(self, n: usize) -> i64
        requires { n < self.len }
        ensures { result ≡ gain_in self.entry.taps.now self.entry.len self.entry.p self.entry.change n }
    {
        self.change * weight(self.taps, self.len, n, self.p)
    }

    // Row 12, of the results in a span. Not the test of `outputs`: this one asks of each result and of what it would be. The limit is no field, as no gain goes by it.
    fn results_allowed(self, limit: u64, results: &[i64], span: Span) -> Result<(), Refusal>
        requires { (limit ≤ max_result) × (span.end ≤ length results.now) × (length results.now ≡ self.len) }
        ensures { answer_of result ≡ R.first_of (R.row_at 12 (length results.now) (picked span.start span.end (refused_in limit self.entry.taps.now self.entry.p self.entry.change results.now)) ∷ []) }
    {
        // by index: a span may end before it starts, and no slice can be cut there
        for n in span.start..span.end {
            if too_large(limit, results[n], self.gain(n)) {
                return Err(Refusal::BadResult { position: n });
            }
        }
        Ok(())
    }

    // Gives the results in a span their gains.
    fn add_gains(self, results: &mut [i64], span: Span)
        requires same { length results.old ≡ self.len }
        requires writable { Writable self.taps.now self.p self.change results.old span.start span.end }
        ensures { results.new ≡ gained_in self.entry.taps.now self.entry.p self.entry.change results.old span.start span.end }
    {
        // by index: `gain` takes the place itself
        for n in span.start..span.end {
            results[n] += self.gain(n);
        }
    }

    // How many results of a span change: every weight within reach is above 0, so all of them, or none.
    fn count(self, span: Span) -> usize
        requires { span.start ≤ span.end }
        ensures { result ≡ count_in self.entry.change span.start span.end }
    {
        if self.change == 0 {
            0
        } else {
            span.end - span.start
        }
    }

    // The taps reach as far as there are any: what lies within reach is tested, and then written. The count of results changed.
    pub fn apply(self, limit: u64, results: &mut [i64]) -> Result<usize, Refusal>
        requires { (limit ≤ max_result) × (1 ≤ length self.taps.now) × (length results.old ≡ self.len) }
        ensures { ChangesIn self.entry.taps.now limit self.entry.p self.entry.change results.old (answer_of result) (value_or 0 result) results.new }
    {
        let span = within_reach(results.len(), self.p, self.taps.len() - 1);
        self.results_allowed(limit, results, span)?;
        self.add_gains(results, span);
        Ok(self.count(span))
    }
}
