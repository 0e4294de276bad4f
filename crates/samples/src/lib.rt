// Doubles taken as samples.
#![tactic(auto)]

ghost use Rattle.meaning.specs.Values as meant;
ghost use Rattle.plan.specs.Structs.{answer_of};
ghost use Rattle.plan.specs.Contract.{Gives};

use plan::Refusal;

pub mod inner;
mod taking;

// Takes doubles as samples: finite, whole and of size at most the bound. A refused call changes no cell.
pub fn doubles_in(bound: u64, doubles: &[f64], samples: &mut [i32]) -> Result<(), Refusal>
    ensures { Gives (meant.doubles_in bound doubles.now samples.old) (answer_of result) samples.new }
{
    taking::allowed(bound, doubles, samples.len())?;
    taking::take_into(doubles, samples);
    Ok(())
}
