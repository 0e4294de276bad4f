// Which samples are bad: those of a size above the bound.
ghost use Rattle.std.specs.Prelude.{◌≡◌, Bool, true, [], ◌∷◌, ℕ, ◌≤◌, ◌<◌, T, leb, length, nat_abs};
ghost use Rattle.std.specs.Int.Signed.{non_neg};
ghost use Rattle.meaning.specs.Limits.{max_bound};
ghost use Rattle.meaning.specs.Refusals as R;
ghost use Rattle.meaning.specs.Calls as C;
ghost use Rattle.theory.specs.Places.{picked};
ghost use Rattle.plan.specs.Structs.{answer_of};
ghost use Rattle.refusals.specs.Acceptable.{Acceptable};

use crate::inner::Span;
use plan::{Plan, Refusal};

// Is x from -most to most?
fn is_acceptable(most: i32, x: i32) -> bool
    requires { T (non_neg most) }
    ensures { result ≡ leb (nat_abs x) (nat_abs most) }
{
    -most <= x && x <= most
}

// Is none bad? The loop counts nothing and has no way out, so that several samples are compared at once. Of a bound above the largest, which no call accepts, the answer is no.
pub(crate) fn all_acceptable(bound: u64, samples: &[i32], span: Span) -> bool
    requires { span.end ≤ length samples.now }
    ensures { (result ≡ true → Acceptable bound samples.now span.start span.end) × (bound ≤ max_bound → Acceptable bound samples.now span.start span.end → result ≡ true) }
{
    if Plan::MAX_BOUND < bound {
        return false;
    }
    let most = bound as i32;
    let mut acceptable = true;
    // by index: a span may end before it starts, and no slice can be cut there
    for i in span.start..span.end {
        acceptable = acceptable & is_acceptable(most, samples[i]);
    }
    acceptable
}

// Row 11, of the places in a span where `bad` says so. From the last down, so that the place kept is the first.
pub fn counted<F: Fn(usize) -> bool>(span: Span, bad: F) -> Result<(), Refusal>
    requires { (i : ℕ) → span.start ≤ i → i < span.end → F.pre bad i }
    ensures { (N : ℕ) (t : ℕ → Bool) → span.end ≤ N → ((i : ℕ) (r : Bool) → span.start ≤ i → i < span.end → F.post bad i r → r ≡ t i) → answer_of result ≡ R.first_of (R.row_at 11 N (picked span.start span.end t) ∷ []) }
{
    let mut first = span.end;
    let mut count: usize = 0;
    for i in (span.start..span.end).rev() {
        if bad(i) {
            first = i;
            count += 1;
        }
    }
    if count == 0 {
        return Ok(());
    }
    Err(Refusal::BadSample {
        position: first,
        bad: count,
    })
}

// Row 11, with the bad samples counted. The answer would be right where none is bad, too: that it asks for one keeps a call from counting where it need not.
pub(crate) fn tally(bound: u64, samples: &[i32], span: Span) -> Result<(), Refusal>
    requires { (span.end ≤ length samples.now) × (bound ≤ max_bound → Acceptable bound samples.now span.start span.end → ⊥) }
    ensures { answer_of result ≡ R.first_of (C.sample_row bound samples.now (R.within span.start span.end) ∷ []) }
{
    counted(
        span,
        |i: usize| bound < i64::from(samples[i]).unsigned_abs(),
    )
}
