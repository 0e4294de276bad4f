// Results over their divisor.
ghost use Rattle.std.specs.Prelude.{ℕ, ◌*◌, ◌≤◌, ◌<◌, length, nat_abs};
ghost use Rattle.meaning.specs.Limits.{least, max_bound, max_result};
ghost use Rattle.meaning.specs.Extension.{at};

// Results that may be put out over this divisor: none is larger than it times the largest bound.
#[derive(Clone, Copy)]
pub struct Quotients<'a> {
    pub results: &'a [i64],
    pub divisor: u64,
    pub ghost positive: { least ≤ divisor },
    pub ghost most: { divisor ≤ max_result },
    pub ghost sizes: { (i : ℕ) → i < length results.now → nat_abs (at results.now i) ≤ max_bound * divisor },
    pub ghost small: { (i : ℕ) → i < length results.now → nat_abs (at results.now i) ≤ max_result },
}
