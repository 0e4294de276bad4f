// Results over the divisor, each as a double.
ghost use Rattle.std.specs.Prelude.{◌≡◌, map, length};
ghost use Rattle.meaning.specs.Values as meant;

use crate::inner;
use outputs::inner::Quotients;

pub(crate) fn doubles_into(quotients: Quotients, cells: &mut [f64])
    requires { length cells.old ≡ length quotients.results.now }
    ensures { cells.new ≡ map (λ z. meant.ratio z quotients.entry.divisor) quotients.entry.results.now }
{
    cells::inner::map_into(
        quotients.results,
        cells,
        |res| inner::ratio(res, quotients.divisor),
    );
}
