// The job record's writer.
#![tactic(auto)]

ghost use Rattle.meaning.specs.Record as M;
ghost use Rattle.plan.specs.Structs.{answer_of};
ghost use Rattle.writer.specs.Contract.{Writes};

use plan::Refusal;
use record::Fields;

mod writing;

// Writes the record of these numbers and samples, judging neither. It has 27 bytes and 4 a sample.
pub fn write_record(fields: Fields, samples: &[i32], bytes: &mut [u8]) -> Result<(), Refusal>
    ensures { Writes (M.write_record fields.radius fields.inner fields.edge fields.passes fields.bound samples.now bytes.old) (answer_of result) bytes.new }
{
    writing::allowed(samples.len(), bytes.len())?;
    writing::put_record(fields, samples, bytes);
    Ok(())
}
