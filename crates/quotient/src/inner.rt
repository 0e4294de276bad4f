// The quotient rounded down, and the rest.
ghost use Rattle.std.specs.Prelude.{◌≡◌, ◌≤◌};
ghost use Rattle.meaning.specs.Limits.{least};
ghost use Rattle.meaning.specs.Extension.{emod};
ghost use Rattle.meaning.specs.Values as meant;
ghost use Rattle.quotient.specs.Ready.{Dividend};

// The largest whole number not above the quotient. The language's own division goes toward zero.
// A divisor may be past the largest i64, which `div_euclid` would have to take it as.
pub fn floor(number: i64, divisor: u64) -> i64
    requires { least ≤ divisor }
    ensures { result ≡ meant.floor number divisor }
{
    // !a is -a - 1. Unlike the negative, it always fits.
    if number < 0 {
        return !((!number as u64 / divisor) as i64);
    }
    (number as u64 / divisor) as i64
}

// What the quotient below leaves of the number. With `rem_euclid`, which divides again, whole output takes 1.6 times as long.
pub fn rest(number: i64, below: i64, divisor: u64) -> u64
    requires dividend { Dividend number divisor }
    requires below_value { below ≡ meant.floor number divisor }
    ensures { result ≡ emod number divisor }
{
    (number - below * divisor as i64) as u64
}
