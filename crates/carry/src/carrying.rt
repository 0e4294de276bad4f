// One run over the results.
ghost use Rattle.std.specs.Prelude.{◌≡◌, length};
ghost use Rattle.meaning.specs.Smoothing.{list_of};
ghost use Rattle.meaning.specs.Carry as meant;

use outputs::inner::Quotients;

// The carry that the last cell leaves.
pub(crate) fn carry_into(quotients: Quotients, cells: &mut [i32]) -> u64
    requires { length cells.old ≡ length quotients.results.now }
    ensures value { result ≡ meant.carry quotients.entry.divisor quotients.entry.results.now (length quotients.entry.results.now) }
    ensures cells_after { cells.new ≡ list_of (length quotients.entry.results.now) (meant.carry_cell quotients.entry.divisor quotients.entry.results.now) }
{
    let Quotients { results, divisor } = quotients;
    let mut carry = 0;
    // no zip: see `map_into` of `cells`
    for (n, cell) in cells.iter_mut().enumerate() {
        let sum = results[n] + carry as i64;
        let below = quotient::inner::floor(sum, divisor);
        *cell = below as i32;
        carry = quotient::inner::rest(sum, below, divisor);
    }
    carry
}
