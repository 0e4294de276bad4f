// Doubles that are whole numbers, for whoever takes one.
ghost use Rattle.std.specs.Prelude.{◌≡◌, ◌≤◌, true, not, [], ◌∷◌, length, slice_index_or};
ghost use Rattle.std.specs.Float.{nan};
ghost use Rattle.std.specs.Float.Ieee.{to_signed};
ghost use Rattle.meaning.specs.Limits.{max_result};
ghost use Rattle.meaning.specs.Refusals as R;
ghost use Rattle.meaning.specs.Values as meant;
ghost use Rattle.plan.specs.Structs.{answer_of};

use plan::Refusal;
use refusals::inner::{Span, counted};

// Is x finite, whole and of size at most the bound? The first two tests are false of a NaN, and leave what an i64 holds.
pub fn takes(bound: u64, x: f64) -> bool
    requires { bound ≤ max_result }
    ensures { result ≡ meant.takes bound x }
{
    if !(x >= -9223372036854775808.0 && x < 9223372036854775808.0) {
        return false;
    }
    let whole = std::num::truncating_f64_to_i64(x);
    whole.unsigned_abs() <= bound && whole as f64 == x
}

// Row 11, of all doubles.
pub fn doubles_allowed(bound: u64, doubles: &[f64]) -> Result<(), Refusal>
    requires { bound ≤ max_result }
    ensures { answer_of result ≡ R.first_of (R.row_at 11 (length doubles.now) (λ i. not (meant.takes bound (slice_index_or doubles.now i nan))) ∷ []) }
{
    let all = Span {
        start: 0,
        end: doubles.len(),
    };
    counted(all, |i: usize| !takes(bound, doubles[i]))
}

// The whole number that a double is. Minus zero, which no cast takes, is 0.
// No `truncating_f64_to_i64`: it shifts the bits of a double where this casts, and each double taken goes through here.
pub fn whole_of(x: f64) -> i64
    requires { meant.takes max_result x ≡ true }
    ensures { result ≡ to_signed 63 x }
{
    if x != 0.0 {
        return x as i64;
    }
    0
}
