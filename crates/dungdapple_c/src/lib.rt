// The calls of `dungdapple` under the names that C and JavaScript link: each export lends what it is lent, and promises the same.
#![tactic(auto)]

ghost use Rattle.std.specs.Prelude.{◌≡◌, length, pos};
ghost use Rattle.std.specs.Float.{binary64};
ghost use Rattle.std.specs.Float.Ieee.{of_int};
ghost use Rattle.meaning.specs.Extension.{fold};
ghost use Rattle.meaning.specs.Smoothing.{list_of};
ghost use Rattle.meaning.specs.Refusals.{plan_divisor, plan_reach};
ghost use Rattle.meaning.specs.Calls as C;
ghost use Rattle.meaning.specs.Values as meant;
ghost use Rattle.meaning.specs.Exact as exactly;
ghost use Rattle.meaning.specs.Carry as carrying;
ghost use Rattle.meaning.specs.Planner.{plan_for};
ghost use Rattle.meaning.specs.Record.{sample_at, read_record};
ghost use Rattle.meaning.specs.HostRecord.{write_record_in};
ghost use Rattle.meaning.specs.Arguments.{whole_of, count_of, plan_in, stages_in};
ghost use Rattle.plan.specs.Structs.{plain};
ghost use Rattle.plan.specs.Contract as conversion;
ghost use Rattle.series.specs.Contract as smoothing;
ghost use Rattle.edit.specs.Contract as editing;
ghost use Rattle.writer.specs.Contract as writing;
ghost use Rattle.answers.specs.Told.{said};
ghost use Rattle.dungdapple.specs.Told.{Points, Carries};

// Smooths the samples into the results, and leaves zeros in work.
#[unsafe(no_mangle)]
pub extern "C" fn dungdapple_smooth_series(
    plan: &[f64],
    bound: f64,
    samples: &[i32],
    results: &mut [i64],
    work: &mut [i64],
    place: &mut u32,
    bad: &mut u32,
) -> u32
    ensures { smoothing.Gives (C.smooth_series fold (stages_in plan.now) (count_of bound) samples.now results.old work.old) (said result place.new bad.new) results.new work.new }
{
    dungdapple::dungdapple_smooth_series(plan, bound, samples, results, work, place, bad)
}

// The same of a picture, rows by the plan across and columns by the plan down.
#[unsafe(no_mangle)]
pub extern "C" fn dungdapple_smooth_picture(
    across: &[f64],
    down: &[f64],
    bound: f64,
    width: f64,
    height: f64,
    samples: &[i32],
    results: &mut [i64],
    work: &mut [i64],
    place: &mut u32,
    bad: &mut u32,
) -> u32
    ensures { smoothing.Gives (C.smooth_picture fold fold (stages_in across.now) (stages_in down.now) (count_of bound) (count_of width) (count_of height) samples.now results.old work.old) (said result place.new bad.new) results.new work.new }
{
    dungdapple::dungdapple_smooth_picture(
        across, down, bound, width, height, samples, results, work, place, bad,
    )
}

// Sets the sample at `position` to the value, and gives each result within reach its gain. It is lent no work.
#[unsafe(no_mangle)]
pub extern "C" fn dungdapple_edit_series(
    plan: &[f64],
    bound: f64,
    position: f64,
    value: f64,
    samples: &mut [i32],
    results: &mut [i64],
    place: &mut u32,
    count: &mut u32,
    bad: &mut u32,
) -> u32
    ensures { editing.GivesAlone (C.edit_series fold (stages_in plan.now) (count_of bound) (count_of position) (whole_of value) samples.old results.old (C.asked (stages_in plan.now) (length samples.old))) (said result place.new bad.new) count.new samples.new results.new }
{
    dungdapple::dungdapple_edit_series(
        plan, bound, position, value, samples, results, place, count, bad,
    )
}

// The smoothed value at `position`; plus zero where refused. It is lent no work.
#[unsafe(no_mangle)]
pub extern "C" fn dungdapple_point(
    plan: &[f64],
    bound: f64,
    position: f64,
    samples: &[i32],
    value: &mut f64,
    place: &mut u32,
    bad: &mut u32,
) -> u32
    ensures { Points (C.point fold (stages_in plan.now) (count_of bound) (count_of position) samples.now (C.asked (stages_in plan.now) (length samples.now))) (said result place.new bad.new) value.new }
{
    dungdapple::dungdapple_point(plan, bound, position, samples, value, place, bad)
}

// Radius and edge weight for a standard deviation in hundredths; both 0 where refused.
#[unsafe(no_mangle)]
pub extern "C" fn dungdapple_plan_for(
    sigma_hundredths: f64,
    passes: f64,
    inner: f64,
    radius: &mut u32,
    edge: &mut u32,
) -> u32
    ensures { record { answer = plain result; radius = radius.new; edge = edge.new } ≡ plan_for (count_of sigma_hundredths) (count_of passes) (count_of inner) }
{
    dungdapple::dungdapple_plan_for(sigma_hundredths, passes, inner, radius, edge)
}

// The sum of a plan's K-fold kernel, D^K; 0 of a plan that is not accepted under any bound.
#[unsafe(no_mangle)]
pub extern "C" fn dungdapple_divisor(plan: &[f64]) -> f64
    ensures { result ≡ of_int binary64 (pos (plan_divisor (stages_in plan.now))) }
{
    dungdapple::dungdapple_divisor(plan)
}

// How far a sample is felt; 0 of a plan that is not accepted under any bound.
#[unsafe(no_mangle)]
pub extern "C" fn dungdapple_reach(plan: &[f64]) -> u32
    ensures { result ≡ plan_reach (stages_in plan.now) }
{
    dungdapple::dungdapple_reach(plan)
}

// Takes doubles as samples: finite, whole and of size at most the bound.
#[unsafe(no_mangle)]
pub extern "C" fn dungdapple_doubles_in(
    bound: f64,
    doubles: &[f64],
    samples: &mut [i32],
    place: &mut u32,
    bad: &mut u32,
) -> u32
    ensures { conversion.Gives (meant.doubles_in (count_of bound) doubles.now samples.old) (said result place.new bad.new) samples.new }
{
    dungdapple::dungdapple_doubles_in(bound, doubles, samples, place, bad)
}

// Each result over the divisor, to the nearest whole number, a half going by the mode: 0 to the even neighbour, 1 upward.
#[unsafe(no_mangle)]
pub extern "C" fn dungdapple_whole_series(
    plan: &[f64],
    bound: f64,
    mode: f64,
    results: &[i64],
    cells: &mut [i32],
    place: &mut u32,
) -> u32
    ensures { conversion.Gives (meant.whole_series_by (stages_in plan.now) (count_of bound) (count_of mode) results.now cells.old) (said result place.new 0) cells.new }
{
    dungdapple::dungdapple_whole_series(plan, bound, mode, results, cells, place)
}

// The same of a picture, over the product of both divisors.
#[unsafe(no_mangle)]
pub extern "C" fn dungdapple_whole_picture(
    across: &[f64],
    down: &[f64],
    bound: f64,
    width: f64,
    height: f64,
    mode: f64,
    results: &[i64],
    cells: &mut [i32],
    place: &mut u32,
) -> u32
    ensures { conversion.Gives (meant.whole_picture_by (stages_in across.now) (stages_in down.now) (count_of bound) (count_of width) (count_of height) (count_of mode) results.now cells.old) (said result place.new 0) cells.new }
{
    dungdapple::dungdapple_whole_picture(
        across, down, bound, width, height, mode, results, cells, place,
    )
}

// Each result and the carry over the divisor, rounded down, the rest carried on; the last carry is answered.
#[unsafe(no_mangle)]
pub extern "C" fn dungdapple_carry_series(
    plan: &[f64],
    bound: f64,
    results: &[i64],
    cells: &mut [i32],
    place: &mut u32,
    carry: &mut f64,
) -> u32
    ensures { Carries (carrying.carry_series (stages_in plan.now) (count_of bound) results.now cells.old) (said result place.new 0) carry.new cells.new }
{
    dungdapple::dungdapple_carry_series(plan, bound, results, cells, place, carry)
}

// The same of a picture, over the product of both divisors.
#[unsafe(no_mangle)]
pub extern "C" fn dungdapple_carry_picture(
    across: &[f64],
    down: &[f64],
    bound: f64,
    width: f64,
    height: f64,
    results: &[i64],
    cells: &mut [i32],
    place: &mut u32,
    carry: &mut f64,
) -> u32
    ensures { Carries (carrying.carry_picture (stages_in across.now) (stages_in down.now) (count_of bound) (count_of width) (count_of height) results.now cells.old) (said result place.new 0) carry.new cells.new }
{
    dungdapple::dungdapple_carry_picture(
        across, down, bound, width, height, results, cells, place, carry,
    )
}

// Each result over the divisor as a double, by one division.
#[unsafe(no_mangle)]
pub extern "C" fn dungdapple_doubles_series(
    plan: &[f64],
    bound: f64,
    results: &[i64],
    cells: &mut [f64],
    place: &mut u32,
) -> u32
    ensures { conversion.Gives (meant.doubles_series (stages_in plan.now) (count_of bound) results.now cells.old) (said result place.new 0) cells.new }
{
    dungdapple::dungdapple_doubles_series(plan, bound, results, cells, place)
}

// The same of a picture, over the product of both divisors.
#[unsafe(no_mangle)]
pub extern "C" fn dungdapple_doubles_picture(
    across: &[f64],
    down: &[f64],
    bound: f64,
    width: f64,
    height: f64,
    results: &[i64],
    cells: &mut [f64],
    place: &mut u32,
) -> u32
    ensures { conversion.Gives (meant.doubles_picture (stages_in across.now) (stages_in down.now) (count_of bound) (count_of width) (count_of height) results.now cells.old) (said result place.new 0) cells.new }
{
    dungdapple::dungdapple_doubles_picture(
        across, down, bound, width, height, results, cells, place,
    )
}

// The lowest and the highest result over the divisor, with the first index of each; plus zero and 0 where refused.
#[unsafe(no_mangle)]
pub extern "C" fn dungdapple_summary_series(
    plan: &[f64],
    bound: f64,
    results: &[i64],
    place: &mut u32,
    lowest: &mut f64,
    highest: &mut f64,
    lowest_at: &mut u32,
    highest_at: &mut u32,
) -> u32
    ensures { record { answer = said result place.new 0; lowest = lowest.new; highest = highest.new; lowest_at = lowest_at.new; highest_at = highest_at.new } ≡ meant.summary_series (stages_in plan.now) (count_of bound) results.now }
{
    dungdapple::dungdapple_summary_series(
        plan, bound, results, place, lowest, highest, lowest_at, highest_at,
    )
}

// The same of a picture, over the product of both divisors.
#[unsafe(no_mangle)]
pub extern "C" fn dungdapple_summary_picture(
    across: &[f64],
    down: &[f64],
    bound: f64,
    width: f64,
    height: f64,
    results: &[i64],
    place: &mut u32,
    lowest: &mut f64,
    highest: &mut f64,
    lowest_at: &mut u32,
    highest_at: &mut u32,
) -> u32
    ensures { record { answer = said result place.new 0; lowest = lowest.new; highest = highest.new; lowest_at = lowest_at.new; highest_at = highest_at.new } ≡ meant.summary_picture (stages_in across.now) (stages_in down.now) (count_of bound) (count_of width) (count_of height) results.now }
{
    dungdapple::dungdapple_summary_picture(
        across, down, bound, width, height, results, place, lowest, highest, lowest_at, highest_at,
    )
}

// Each result as the double that is the same number.
#[unsafe(no_mangle)]
pub extern "C" fn dungdapple_results_to_doubles(
    results: &[i64],
    cells: &mut [f64],
    place: &mut u32,
) -> u32
    ensures { conversion.Gives (exactly.results_to_doubles results.now cells.old) (said result place.new 0) cells.new }
{
    dungdapple::dungdapple_results_to_doubles(results, cells, place)
}

// Each double as the result that is the same number.
#[unsafe(no_mangle)]
pub extern "C" fn dungdapple_doubles_to_results(
    doubles: &[f64],
    results: &mut [i64],
    place: &mut u32,
    bad: &mut u32,
) -> u32
    ensures { conversion.Gives (exactly.doubles_to_results doubles.now results.old) (said result place.new bad.new) results.new }
{
    dungdapple::dungdapple_doubles_to_results(doubles, results, place, bad)
}

// The numbers of a job record, and the stretch of it that holds the samples, in bytes; all 0 where refused.
#[unsafe(no_mangle)]
pub extern "C" fn dungdapple_read_record(
    bytes: &[u8],
    radius: &mut u32,
    inner: &mut u32,
    edge: &mut u32,
    passes: &mut u32,
    bound: &mut u32,
    start: &mut u32,
    size: &mut u32,
) -> u32
    ensures { record { answer = plain result; radius = radius.new; inner = inner.new; edge = edge.new; passes = passes.new; bound = bound.new; start = start.new; size = size.new } ≡ read_record bytes.now }
{
    dungdapple::dungdapple_read_record(bytes, radius, inner, edge, passes, bound, start, size)
}

// Every cell gets its sample of such a stretch, 0 where that has none.
#[unsafe(no_mangle)]
pub extern "C" fn dungdapple_record_samples(stretch: &[u8], samples: &mut [i32])
    ensures { samples.new ≡ list_of (length samples.old) (sample_at stretch.now) }
{
    dungdapple::dungdapple_record_samples(stretch, samples);
}

// Writes a job record, of 27 bytes and 4 a sample. It judges no number but by its field, which has to hold it.
#[unsafe(no_mangle)]
pub extern "C" fn dungdapple_write_record(
    plan: &[f64],
    bound: f64,
    samples: &[i32],
    bytes: &mut [u8],
) -> u32
    ensures { writing.Writes (write_record_in (plan_in plan.now) (count_of bound) samples.now bytes.old) (plain result) bytes.new }
{
    dungdapple::dungdapple_write_record(plan, bound, samples, bytes)
}
