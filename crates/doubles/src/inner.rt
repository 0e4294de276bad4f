// A result over the divisor.
ghost use Rattle.std.specs.Prelude.{◌≡◌, ◌≤◌, nat_abs};
ghost use Rattle.meaning.specs.Limits.{least, max_result};
ghost use Rattle.meaning.specs.Values as meant;

// A result over the divisor, by one division: both are below 2^53, so either is exact as a double.
pub fn ratio(res: i64, divisor: u64) -> f64
    requires res_bound { nat_abs res ≤ max_result }
    requires least_le_divisor { (least ≤ divisor) × (divisor ≤ max_result) }
    ensures { result ≡ meant.ratio res divisor }
{
    (res as f64) / (divisor as f64)
}
