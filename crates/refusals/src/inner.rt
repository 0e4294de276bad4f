// The tests that calls share. A refusal is that of the first row that applies.
ghost use Rattle.std.specs.Prelude.{◌≡◌, ◌||◌, List, [], ◌∷◌, ◌+◌, ◌*◌, ◌^◌, ◌≤◌, ◌<◌, length};
ghost use Rattle.meaning.specs.Kernel.{Stage};
ghost use Rattle.meaning.specs.Refusals as R;
ghost use Rattle.meaning.specs.Calls as C;
ghost use Rattle.theory.specs.Placed.{placed_rows};
ghost use Rattle.plan.specs.Structs.{stages_of, answer_of};
ghost use Rattle.refusals.specs.Sides.{some_cells};
ghost use Rattle.refusals.specs.Span.{low, high};

use crate::bad;
pub use crate::bad::counted;
use plan::inner::{allowed, outside, row, scaled};
use plan::{Plan, Raster, Refusal};

// Is either length not the one asked?
pub fn lengths_differ(a: usize, asked_a: usize, b: usize, asked_b: usize) -> bool
    ensures { result ≡ R.differs a asked_a || R.differs b asked_b }
{
    a != asked_a || b != asked_b
}

// Rows 1 to 4 of two plans: the lower row of the two.
pub fn plans_allowed(across: Plan, down: Plan) -> Result<(), Refusal>
    ensures { answer_of result ≡ R.first_of (R.plan_rows (stages_of across ∷ stages_of down ∷ [])) }
{
    match (allowed(across), allowed(down)) {
        (Err(a), Err(b)) => {
            if a.number() < b.number() {
                Err(a)
            } else {
                Err(b)
            }
        }
        (Err(a), Ok(())) => Err(a),
        (Ok(()), second) => second,
    }
}

// Rows 5 to 8, of the bound, its product with the divisor, and two tests that the call has made.
pub fn sizes_allowed(
    bound: u64,
    product: u64,
    bad_size: bool,
    wrong_length: bool,
) -> Result<(), Refusal>
    ensures { answer_of result ≡ R.first_of (R.size_rows bound product bad_size wrong_length) }
{
    let bad_bound = outside(Plan::LEAST, Plan::MAX_BOUND, bound);
    row(bad_bound, Refusal::Bound)?;
    row(Plan::MAX_RESULT < product, Refusal::Product)?;
    row(bad_size, Refusal::Size)?;
    row(wrong_length, Refusal::Length)
}

// Rows 1 to 8 of a series.
pub fn series_allowed(
    plan: Plan,
    bound: u64,
    cells: usize,
    wrong_length: bool,
) -> Result<(), Refusal>
    ensures { answer_of result ≡ R.first_of (R.common_rows (R.series_of (stages_of plan) cells) bound wrong_length) }
{
    allowed(plan)?;
    let bad_size = outside(Plan::LEAST, Plan::MAX_LENGTH, cells as u64);
    sizes_allowed(bound, scaled(bound, plan), bad_size, wrong_length)
}

// Rows 1 to 9 of a series with a place in it.
pub fn position_allowed(
    plan: Plan,
    bound: u64,
    cells: usize,
    wrong_length: bool,
    position: usize,
) -> Result<(), Refusal>
    ensures { answer_of result ≡ R.first_of (placed_rows (stages_of plan) bound cells wrong_length position) }
{
    series_allowed(plan, bound, cells, wrong_length)?;
    row(cells <= position, Refusal::Position)
}

// Width times height, where row 7 does not apply. The sides are tested first, so that the product cannot wrap.
pub fn picture_cells(width: u64, height: u64) -> Option<usize>
    ensures { result ≡ some_cells width height }
{
    if outside(Plan::LEAST, Plan::MAX_SIDE, width) {
        return None;
    }
    if outside(Plan::LEAST, Plan::MAX_SIDE, height) {
        return None;
    }
    let cells = width * height;
    if Plan::MAX_LENGTH < cells {
        return None;
    }
    Some(cells as usize)
}

// Rows 1 to 8 of a picture.
pub fn picture_allowed(raster: Raster, wrong_length: bool) -> Result<(), Refusal>
    ensures { answer_of result ≡ R.first_of (R.common_rows (R.picture_of (stages_of raster.across) (stages_of raster.down) raster.width raster.height) raster.bound wrong_length) }
{
    plans_allowed(raster.across, raster.down)?;
    let product = scaled(scaled(raster.bound, raster.across), raster.down);
    let bad_size = picture_cells(raster.width, raster.height).is_none();
    sizes_allowed(raster.bound, product, bad_size, wrong_length)
}

// Some places in a row, from start up to end, end itself left out.
// A `Range` cannot be copied. That end is within a slice is a clause of each function: a span knows no slice.
#[derive(Clone, Copy)]
pub struct Span {
    pub start: usize,
    pub end: usize,
}

// What lies within reach of p, of len places.
pub fn within_reach(len: usize, p: usize, reach: usize) -> Span
    requires { p + reach + 1 < 2 ^ 64 }
    ensures start { result.start ≡ low p reach }
    ensures end { result.end ≡ high len p reach }
{
    let start = p.saturating_sub(reach);
    let end = len.min(p + reach + 1);
    Span { start, end }
}

// Row 11, of the samples in a span. Only where one is bad are they counted.
pub fn samples_allowed(bound: u64, samples: &[i32], span: Span) -> Result<(), Refusal>
    requires { span.end ≤ length samples.now }
    ensures { answer_of result ≡ R.first_of (C.sample_row bound samples.now (R.within span.start span.end) ∷ []) }
{
    if bad::all_acceptable(bound, samples, span) {
        return Ok(());
    }
    bad::tally(bound, samples, span)
}

// The cells of work that an edit and a point ask, under every plan.
pub fn edit_room(len: usize) -> usize
    requires { 2 * len < 2 ^ 64 }
    ensures { (ss : List Stage) → result ≡ C.edit_room ss len }
{
    2 * len
}
