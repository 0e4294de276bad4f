// What a job record holds.
#![tactic(auto)]

ghost use Rattle.std.specs.Prelude.{◌≡◌};
ghost use Rattle.meaning.specs.Limits.{max_samples};
ghost use Rattle.meaning.specs.Record as M;

use plan::Plan;

pub mod inner;

// The numbers of a job, each of the width of its field.
#[derive(Clone, Copy)]
pub struct Fields {
    pub radius: u16,
    pub inner: u8,
    pub edge: u8,
    pub passes: u8,
    pub bound: u32,
}

impl From<Fields> for Plan {
    ghost from_gives = { λ f p. p ≡ record { radius = f.radius; inner = f.inner; edge = f.edge; passes = f.passes } };

    fn from(fields: Fields) -> Plan {
        Plan::new(
            u64::from(fields.radius),
            u64::from(fields.inner),
            u64::from(fields.edge),
            u64::from(fields.passes),
        )
    }
}

// What the reader answers: the numbers, and the stretch of the record that holds the samples, in bytes.
// Two numbers and no slice: hosts are told them.
#[derive(Clone, Copy)]
pub struct Job {
    pub fields: Fields,
    pub start: usize,
    pub size: usize,
}

impl Job {
    pub const MAX_SAMPLES: u64 = 1024;
}

// No code calls this: it is proved, so that the constant is the number of the definitions.
fn limit_agrees()
    ensures { max_samples ≡ Job.MAX_SAMPLES }
{}

// That stretch of a record, as much of it as the record has.
pub fn stretch(bytes: &[u8], start: usize, size: usize) -> &[u8]
    ensures { result.now ≡ M.stretch start size bytes.now }
{
    let rest = &bytes[start.min(bytes.len())..];
    &rest[..size.min(rest.len())]
}

// Sample i of a stretch; 0 where it has none. No `get`: the reason stands at `tap_at` of `taps`.
pub fn sample(stretch: &[u8], i: usize) -> i32
    ensures { result ≡ M.sample_at stretch.now i }
{
    let (samples, _) = stretch.as_chunks::<4>();
    if i < samples.len() {
        encoding::inner::signed(samples[i])
    } else {
        0
    }
}
