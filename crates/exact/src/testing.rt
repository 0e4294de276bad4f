// What both conversions test.
ghost use Rattle.std.specs.Prelude.{◌≡◌, length};
ghost use Rattle.meaning.specs.Refusals as R;
ghost use Rattle.meaning.specs.Exact as meant;
ghost use Rattle.plan.specs.Structs.{answer_of};

use plan::inner::{outside, row};
use plan::{Plan, Refusal};

// Rows 7 and 8, of so many cells given and so many lent.
// Not one function with `allowed` of `writer`: two rows each, and it would take five numbers.
fn lengths_allowed(given: usize, lent: usize) -> Result<(), Refusal>
    ensures { answer_of result ≡ R.first_of (meant.length_rows given lent) }
{
    let bad_size = outside(Plan::LEAST, Plan::MAX_LENGTH, given as u64);
    row(bad_size, Refusal::Size)?;
    row(lent != given, Refusal::Length)
}

pub(crate) fn results_allowed(results: &[i64], cells: usize) -> Result<(), Refusal>
    ensures { answer_of result ≡ R.first_of (meant.exact_rows results.now cells) }
{
    lengths_allowed(results.len(), cells)?;
    outputs::inner::results_allowed(Plan::MAX_RESULT, results)
}

pub(crate) fn doubles_allowed(doubles: &[f64], results: usize) -> Result<(), Refusal>
    ensures { answer_of result ≡ R.first_of (meant.back_rows doubles.now results) }
{
    lengths_allowed(doubles.len(), results)?;
    samples::inner::doubles_allowed(Plan::MAX_RESULT, doubles)
}
