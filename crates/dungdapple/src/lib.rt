// The calls as other languages have them. Every number that a host gives is a double, a plan a slice of four; what is no whole number within the limits
// is refused by its own number. What is answered is the number returned, and the rest is written through what the host lends. A refused call changes no cell.
#![tactic(auto)]

ghost use Rattle.std.specs.Prelude.{◌≡◌, length, pos};
ghost use Rattle.std.specs.Float.{binary64};
ghost use Rattle.std.specs.Float.Ieee.{of_int};
ghost use Rattle.meaning.specs.Extension.{fold};
ghost use Rattle.meaning.specs.Smoothing.{list_of};
ghost use Rattle.meaning.specs.Refusals.{plan_divisor, plan_reach};
ghost use Rattle.meaning.specs.Calls as C;
ghost use Rattle.meaning.specs.Values as meant;
ghost use Rattle.meaning.specs.Exact as exactly;
ghost use Rattle.meaning.specs.Carry as carrying;
ghost use Rattle.meaning.specs.Planner.{plan_for};
ghost use Rattle.meaning.specs.Record.{sample_at, read_record};
ghost use Rattle.meaning.specs.HostRecord.{write_record_in};
ghost use Rattle.meaning.specs.Arguments.{whole_of, count_of, plan_in, stages_in};
ghost use Rattle.plan.specs.Structs.{plain, answer_of};
ghost use Rattle.plan.specs.Contract as conversion;
ghost use Rattle.series.specs.Contract as smoothing;
ghost use Rattle.edit.specs.Contract as editing;
ghost use Rattle.writer.specs.Contract as writing;
ghost use Rattle.answers.specs.Told.{said};
ghost use Rattle.arguments.specs.Numbers.{numbers_of};
ghost use Rattle.dungdapple.specs.Told.{Points, Carries};

use plan::{Plan, Refusal};
use planner::Planned;
use record::{Fields, Job};
use summary::Summary;

// What a refused call tells in place of each. No `Default`: these zeros are promised, and stand here to be read.
const NO_PLAN: Planned = Planned { radius: 0, edge: 0 };

const NO_SUMMARY: Summary = Summary {
    lowest: 0.0,
    highest: 0.0,
    lowest_at: 0,
    highest_at: 0,
};

const NO_JOB: Job = Job {
    fields: Fields {
        radius: 0,
        inner: 0,
        edge: 0,
        passes: 0,
        bound: 0,
    },
    start: 0,
    size: 0,
};

// Smooths the samples into the results, and leaves zeros in work.
pub fn dungdapple_smooth_series(
    plan: &[f64],
    bound: f64,
    samples: &[i32],
    results: &mut [i64],
    work: &mut [i64],
    place: &mut u32,
    bad: &mut u32,
) -> u32
    ensures { smoothing.Gives (C.smooth_series fold (stages_in plan.now) (count_of bound) samples.now results.old work.old) (said result place.new bad.new) results.new work.new }
{
    let numbers = arguments::inner::plan(plan);
    let most = arguments::inner::count(bound);
    let answer = series::smooth_series(numbers, most, samples, results, work);
    answers::inner::checked(answer, place, bad)
}

// The same of a picture, rows by the plan across and columns by the plan down.
pub fn dungdapple_smooth_picture(
    across: &[f64],
    down: &[f64],
    bound: f64,
    width: f64,
    height: f64,
    samples: &[i32],
    results: &mut [i64],
    work: &mut [i64],
    place: &mut u32,
    bad: &mut u32,
) -> u32
    ensures { smoothing.Gives (C.smooth_picture fold fold (stages_in across.now) (stages_in down.now) (count_of bound) (count_of width) (count_of height) samples.now results.old work.old) (said result place.new bad.new) results.new work.new }
{
    let raster = arguments::inner::raster(across, down, bound, width, height);
    let answer = picture::smooth_picture(raster, samples, results, work);
    answers::inner::checked(answer, place, bad)
}

// Sets the sample at `position` to the value, and gives each result within reach its gain. It is lent no work.
pub fn dungdapple_edit_series(
    plan: &[f64],
    bound: f64,
    position: f64,
    value: f64,
    samples: &mut [i32],
    results: &mut [i64],
    place: &mut u32,
    count: &mut u32,
    bad: &mut u32,
) -> u32
    ensures { editing.GivesAlone (C.edit_series fold (stages_in plan.now) (count_of bound) (count_of position) (whole_of value) samples.old results.old (C.asked (stages_in plan.now) (length samples.old))) (said result place.new bad.new) count.new samples.new results.new }
{
    let numbers = arguments::inner::plan(plan);
    let most = arguments::inner::count(bound);
    let at = arguments::inner::count(position) as usize;
    let new = arguments::inner::whole(value);
    let edited = edit::inner::edit_alone(numbers, most, at, new, samples, results);
    *count = edited.unwrap_or(0) as u32;
    answers::inner::checked(edited, place, bad)
}

// The smoothed value at `position`; plus zero where refused. It is lent no work.
pub fn dungdapple_point(
    plan: &[f64],
    bound: f64,
    position: f64,
    samples: &[i32],
    value: &mut f64,
    place: &mut u32,
    bad: &mut u32,
) -> u32
    ensures { Points (C.point fold (stages_in plan.now) (count_of bound) (count_of position) samples.now (C.asked (stages_in plan.now) (length samples.now))) (said result place.new bad.new) value.new }
{
    let numbers = arguments::inner::plan(plan);
    let most = arguments::inner::count(bound);
    let at = arguments::inner::count(position) as usize;
    let pointed = point::inner::point_alone(numbers, most, at, samples);
    *value = pointed.unwrap_or(0.0);
    answers::inner::checked(pointed, place, bad)
}

// Radius and edge weight for a standard deviation in hundredths; both 0 where refused.
pub fn dungdapple_plan_for(
    sigma_hundredths: f64,
    passes: f64,
    inner: f64,
    radius: &mut u32,
    edge: &mut u32,
) -> u32
    ensures { record { answer = plain result; radius = radius.new; edge = edge.new } ≡ plan_for (count_of sigma_hundredths) (count_of passes) (count_of inner) }
{
    let sigma = arguments::inner::count(sigma_hundredths);
    let times = arguments::inner::count(passes);
    let weight = arguments::inner::count(inner);
    let planned = planner::plan_for(sigma, times, weight);
    let found = planned.unwrap_or(NO_PLAN);
    *radius = found.radius as u32;
    *edge = found.edge as u32;
    answers::inner::number(planned)
}

// The sum of a plan's K-fold kernel, D^K; 0 of a plan that is not accepted under any bound.
pub fn dungdapple_divisor(plan: &[f64]) -> f64
    ensures { result ≡ of_int binary64 (pos (plan_divisor (stages_in plan.now))) }
{
    let numbers = arguments::inner::plan(plan);
    numbers.divisor() as f64
}

// How far a sample is felt; 0 of a plan that is not accepted under any bound.
pub fn dungdapple_reach(plan: &[f64]) -> u32
    ensures { result ≡ plan_reach (stages_in plan.now) }
{
    let numbers = arguments::inner::plan(plan);
    numbers.reach() as u32
}

// Takes doubles as samples: finite, whole and of size at most the bound.
pub fn dungdapple_doubles_in(
    bound: f64,
    doubles: &[f64],
    samples: &mut [i32],
    place: &mut u32,
    bad: &mut u32,
) -> u32
    ensures { conversion.Gives (meant.doubles_in (count_of bound) doubles.now samples.old) (said result place.new bad.new) samples.new }
{
    let most = arguments::inner::count(bound);
    let answer = samples::doubles_in(most, doubles, samples);
    answers::inner::checked(answer, place, bad)
}

// Each result over the divisor, to the nearest whole number, a half going by the mode: 0 to the even neighbour, 1 upward.
pub fn dungdapple_whole_series(
    plan: &[f64],
    bound: f64,
    mode: f64,
    results: &[i64],
    cells: &mut [i32],
    place: &mut u32,
) -> u32
    ensures { conversion.Gives (meant.whole_series_by (stages_in plan.now) (count_of bound) (count_of mode) results.now cells.old) (said result place.new 0) cells.new }
{
    let numbers = arguments::inner::plan(plan);
    let most = arguments::inner::count(bound);
    let half = arguments::inner::count(mode);
    let answer = whole::whole_series_by(numbers, most, half, results, cells);
    answers::inner::told(answer, place)
}

// The same of a picture, over the product of both divisors.
pub fn dungdapple_whole_picture(
    across: &[f64],
    down: &[f64],
    bound: f64,
    width: f64,
    height: f64,
    mode: f64,
    results: &[i64],
    cells: &mut [i32],
    place: &mut u32,
) -> u32
    ensures { conversion.Gives (meant.whole_picture_by (stages_in across.now) (stages_in down.now) (count_of bound) (count_of width) (count_of height) (count_of mode) results.now cells.old) (said result place.new 0) cells.new }
{
    let raster = arguments::inner::raster(across, down, bound, width, height);
    let half = arguments::inner::count(mode);
    let answer = whole::whole_picture_by(raster, half, results, cells);
    answers::inner::told(answer, place)
}

// Each result and the carry over the divisor, rounded down, the rest carried on; the last carry is answered.
pub fn dungdapple_carry_series(
    plan: &[f64],
    bound: f64,
    results: &[i64],
    cells: &mut [i32],
    place: &mut u32,
    carry: &mut f64,
) -> u32
    ensures { Carries (carrying.carry_series (stages_in plan.now) (count_of bound) results.now cells.old) (said result place.new 0) carry.new cells.new }
{
    let numbers = arguments::inner::plan(plan);
    let most = arguments::inner::count(bound);
    let carried = carry::carry_series(numbers, most, results, cells);
    *carry = carried.unwrap_or(0) as f64;
    answers::inner::told(carried, place)
}

// The same of a picture, over the product of both divisors.
pub fn dungdapple_carry_picture(
    across: &[f64],
    down: &[f64],
    bound: f64,
    width: f64,
    height: f64,
    results: &[i64],
    cells: &mut [i32],
    place: &mut u32,
    carry: &mut f64,
) -> u32
    ensures { Carries (carrying.carry_picture (stages_in across.now) (stages_in down.now) (count_of bound) (count_of width) (count_of height) results.now cells.old) (said result place.new 0) carry.new cells.new }
{
    let raster = arguments::inner::raster(across, down, bound, width, height);
    let run = carry::carry_picture(raster, results, cells);
    *carry = run.unwrap_or(0) as f64;
    answers::inner::told(run, place)
}

// Each result over the divisor as a double, by one division.
pub fn dungdapple_doubles_series(
    plan: &[f64],
    bound: f64,
    results: &[i64],
    cells: &mut [f64],
    place: &mut u32,
) -> u32
    ensures { conversion.Gives (meant.doubles_series (stages_in plan.now) (count_of bound) results.now cells.old) (said result place.new 0) cells.new }
{
    let numbers = arguments::inner::plan(plan);
    let most = arguments::inner::count(bound);
    let answer = doubles::doubles_series(numbers, most, results, cells);
    answers::inner::told(answer, place)
}

// The same of a picture, over the product of both divisors.
pub fn dungdapple_doubles_picture(
    across: &[f64],
    down: &[f64],
    bound: f64,
    width: f64,
    height: f64,
    results: &[i64],
    cells: &mut [f64],
    place: &mut u32,
) -> u32
    ensures { conversion.Gives (meant.doubles_picture (stages_in across.now) (stages_in down.now) (count_of bound) (count_of width) (count_of height) results.now cells.old) (said result place.new 0) cells.new }
{
    let raster = arguments::inner::raster(across, down, bound, width, height);
    let answer = doubles::doubles_picture(raster, results, cells);
    answers::inner::told(answer, place)
}

// The lowest and the highest result over the divisor, with the first index of each; plus zero and 0 where refused.
pub fn dungdapple_summary_series(
    plan: &[f64],
    bound: f64,
    results: &[i64],
    place: &mut u32,
    lowest: &mut f64,
    highest: &mut f64,
    lowest_at: &mut u32,
    highest_at: &mut u32,
) -> u32
    ensures { record { answer = said result place.new 0; lowest = lowest.new; highest = highest.new; lowest_at = lowest_at.new; highest_at = highest_at.new } ≡ meant.summary_series (stages_in plan.now) (count_of bound) results.now }
{
    let numbers = arguments::inner::plan(plan);
    let most = arguments::inner::count(bound);
    let summed = summary::summary_series(numbers, most, results);
    let found = summed.unwrap_or(NO_SUMMARY);
    *lowest = found.lowest;
    *highest = found.highest;
    *lowest_at = found.lowest_at as u32;
    *highest_at = found.highest_at as u32;
    answers::inner::told(summed, place)
}

// The same of a picture, over the product of both divisors.
pub fn dungdapple_summary_picture(
    across: &[f64],
    down: &[f64],
    bound: f64,
    width: f64,
    height: f64,
    results: &[i64],
    place: &mut u32,
    lowest: &mut f64,
    highest: &mut f64,
    lowest_at: &mut u32,
    highest_at: &mut u32,
) -> u32
    ensures { record { answer = said result place.new 0; lowest = lowest.new; highest = highest.new; lowest_at = lowest_at.new; highest_at = highest_at.new } ≡ meant.summary_picture (stages_in across.now) (stages_in down.now) (count_of bound) (count_of width) (count_of height) results.now }
{
    let raster = arguments::inner::raster(across, down, bound, width, height);
    let summed = summary::summary_picture(raster, results);
    let found = summed.unwrap_or(NO_SUMMARY);
    *lowest = found.lowest;
    *highest = found.highest;
    *lowest_at = found.lowest_at as u32;
    *highest_at = found.highest_at as u32;
    answers::inner::told(summed, place)
}

// Each result as the double that is the same number.
pub fn dungdapple_results_to_doubles(results: &[i64], cells: &mut [f64], place: &mut u32) -> u32
    ensures { conversion.Gives (exactly.results_to_doubles results.now cells.old) (said result place.new 0) cells.new }
{
    let answer = exact::results_to_doubles(results, cells);
    answers::inner::told(answer, place)
}

// Each double as the result that is the same number.
pub fn dungdapple_doubles_to_results(
    doubles: &[f64],
    results: &mut [i64],
    place: &mut u32,
    bad: &mut u32,
) -> u32
    ensures { conversion.Gives (exactly.doubles_to_results doubles.now results.old) (said result place.new bad.new) results.new }
{
    let answer = exact::doubles_to_results(doubles, results);
    answers::inner::checked(answer, place, bad)
}

// The numbers of a job record, and the stretch of it that holds the samples, in bytes; all 0 where refused.
pub fn dungdapple_read_record(
    bytes: &[u8],
    radius: &mut u32,
    inner: &mut u32,
    edge: &mut u32,
    passes: &mut u32,
    bound: &mut u32,
    start: &mut u32,
    size: &mut u32,
) -> u32
    ensures { record { answer = plain result; radius = radius.new; inner = inner.new; edge = edge.new; passes = passes.new; bound = bound.new; start = start.new; size = size.new } ≡ read_record bytes.now }
{
    let read = reader::read_record(bytes);
    let job = read.unwrap_or(NO_JOB);
    *radius = u32::from(job.fields.radius);
    *inner = u32::from(job.fields.inner);
    *edge = u32::from(job.fields.edge);
    *passes = u32::from(job.fields.passes);
    *bound = job.fields.bound;
    *start = job.start as u32;
    *size = job.size as u32;
    answers::inner::number(read)
}

// Every cell gets its sample of such a stretch, 0 where that has none.
pub fn dungdapple_record_samples(stretch: &[u8], samples: &mut [i32])
    ensures { samples.new ≡ list_of (length samples.old) (sample_at stretch.now) }
{
    record::inner::load(stretch, samples);
}

// Writes a job record, of 27 bytes and 4 a sample. It judges no number but by its field, which has to hold it.
pub fn dungdapple_write_record(plan: &[f64], bound: f64, samples: &[i32], bytes: &mut [u8]) -> u32
    ensures { writing.Writes (write_record_in (plan_in plan.now) (count_of bound) samples.now bytes.old) (plain result) bytes.new }
{
    let numbers = arguments::inner::plan(plan);
    let most = arguments::inner::count(bound);
    let written = written(numbers, most, samples, bytes);
    answers::inner::number(written)
}

// The record of numbers that their fields hold.
fn written(plan: Plan, bound: u64, samples: &[i32], bytes: &mut [u8]) -> Result<(), Refusal>
    ensures { writing.Writes (write_record_in (numbers_of plan) bound samples.now bytes.old) (answer_of result) bytes.new }
{
    let fields = arguments::inner::fields(plan, bound)?;
    writer::write_record(fields, samples, bytes)
}
