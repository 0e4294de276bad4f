// The job record's reader.
#![tactic(auto)]

ghost use Rattle.std.specs.Prelude.{◌≡◌};
ghost use Rattle.meaning.specs.Record as M;
ghost use Rattle.record.specs.Structs.{job_of};

use plan::Refusal;
use record::{Fields, Job};

mod reading;

// Takes a record apart. Anything that the writer does not write is refused.
pub fn read_record(bytes: &[u8]) -> Result<Job, Refusal>
    ensures { job_of result ≡ M.read_record bytes.now }
{
    let Some((radius, rest)) = reading::field::<2>(bytes, 1) else {
        return Err(Refusal::Record);
    };
    let Some((inner, rest)) = reading::field::<1>(rest, 2) else {
        return Err(Refusal::Record);
    };
    let Some((edge, rest)) = reading::field::<1>(rest, 3) else {
        return Err(Refusal::Record);
    };
    let Some((passes, rest)) = reading::field::<1>(rest, 4) else {
        return Err(Refusal::Record);
    };
    let Some((bound, rest)) = reading::field::<4>(rest, 5) else {
        return Err(Refusal::Record);
    };
    let Some(samples) = reading::samples_field(rest) else {
        return Err(Refusal::Record);
    };
    Ok(Job {
        fields: Fields {
            radius: u16::from_be_bytes(*radius),
            inner: u8::from_be_bytes(*inner),
            edge: u8::from_be_bytes(*edge),
            passes: u8::from_be_bytes(*passes),
            bound: u32::from_be_bytes(*bound),
        },
        start: bytes.len() - samples.len(),
        size: samples.len(),
    })
}
