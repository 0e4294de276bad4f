// Results over the divisor, each to the nearest whole number.
ghost use Rattle.std.specs.Prelude.{◌≡◌, map, length};
ghost use Rattle.meaning.specs.Values as meant;
ghost use Rattle.theory.specs.Rounded.{goes_up};
ghost use Rattle.outputs.specs.Ready.{PutOut};
ghost use Rattle.whole.specs.Mode.{mode_of};

use crate::mode::Rounding;
use outputs::inner::Quotients;

// Whether the half above this number goes up: to the even neighbour only where this number is odd.
fn goes_up(rounding: Rounding, below: i64) -> bool
    ensures { result ≡ goes_up (mode_of rounding) below }
{
    match rounding {
        Rounding::Even => below % 2 != 0,
        Rounding::Upward => true,
    }
}

// The nearest whole number: the one below, or past the half the one above. A half that goes up is past it.
fn rounded(rounding: Rounding, res: i64, divisor: u64) -> i32
    requires { PutOut res divisor }
    ensures { result ≡ meant.rounded (mode_of rounding) res divisor }
{
    let below = quotient::inner::floor(res, divisor);
    let rest = quotient::inner::rest(res, below, divisor);
    if 2 * rest + u64::from(goes_up(rounding, below)) <= divisor {
        return below as i32;
    }
    (below + 1) as i32
}

pub(crate) fn whole_into(quotients: Quotients, rounding: Rounding, cells: &mut [i32])
    requires { length cells.old ≡ length quotients.results.now }
    ensures { cells.new ≡ map (λ z. meant.rounded (mode_of rounding) z quotients.entry.divisor) quotients.entry.results.now }
{
    cells::inner::map_into(
        quotients.results,
        cells,
        |res| rounded(rounding, res, quotients.divisor),
    );
}
