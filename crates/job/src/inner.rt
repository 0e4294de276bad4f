// The samples of a job smoothed, and the text of that.
ghost use Rattle.std.specs.Prelude.{◌/◌, ◌≤◌, length};
ghost use Rattle.meaning.specs.Limits.{max_samples};
ghost use Rattle.plan.specs.Structs.{stages_of};
ghost use Rattle.encoding.specs.Append.{rest, Wrote};
ghost use Rattle.job.specs.Text.{samples_in, series_text, most_text, Lent};

use encoding::inner::cursor::Cursor;
use plan::Plan;

// A job has at most 1,024 samples: fixed arrays, so that no memory can run out and a refusal has no other cause.
const MOST_SAMPLES: usize = record::Job::MAX_SAMPLES as usize;

// Smooths the samples of a stretch.
pub fn smooth(plan: Plan, bound: u64, stretch: &[u8], out: &mut Cursor)
    requires { (length stretch.now / 4 ≤ max_samples) × (most_text ≤ length (rest out.old)) }
    ensures { Wrote out.old (series_text (stages_of plan) bound (samples_in stretch.now)) out.new }
{
    let mut samples = [0i32; MOST_SAMPLES];
    let mut results = [0i64; MOST_SAMPLES];
    let mut work = [0i64; MOST_SAMPLES];
    let n = stretch.len() / 4;
    smooth_into(
        plan,
        bound,
        stretch,
        &mut samples[..n],
        &mut results[..n],
        &mut work[..n],
        out,
    );
}

// The same, of slices of that length: the results' lines, or the one line of a refusal.
fn smooth_into(
    plan: Plan,
    bound: u64,
    stretch: &[u8],
    samples: &mut [i32],
    results: &mut [i64],
    work: &mut [i64],
    out: &mut Cursor,
)
    requires { Lent (length stretch.now / 4) (length samples.old) (length results.old) (length work.old) (length (rest out.old)) }
    ensures { Wrote out.old (series_text (stages_of plan) bound (samples_in stretch.now)) out.new }
{
    record::inner::load(stretch, samples);
    match series::smooth_series(plan, bound, samples, results, work) {
        Ok(()) => {
            lines::inner::done_line(out, plan.divisor(), results.len() as u64);
            lines::inner::result_lines(out, results);
        }
        Err(refusal) => lines::inner::refused_line(out, refusal),
    }
}
