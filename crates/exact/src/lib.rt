// Results as doubles that are the same numbers, and back.
#![tactic(auto)]

ghost use Rattle.meaning.specs.Exact as meant;
ghost use Rattle.plan.specs.Structs.{answer_of};
ghost use Rattle.plan.specs.Contract.{Gives};

use plan::Refusal;

mod converting;
mod testing;

// Each result as the double that is the same number. A refused call changes no cell.
pub fn results_to_doubles(results: &[i64], cells: &mut [f64]) -> Result<(), Refusal>
    ensures { Gives (meant.results_to_doubles results.now cells.old) (answer_of result) cells.new }
{
    testing::results_allowed(results, cells.len())?;
    converting::doubles_into(results, cells);
    Ok(())
}

// Each double as the result that is the same number. A refused call changes no cell.
pub fn doubles_to_results(doubles: &[f64], results: &mut [i64]) -> Result<(), Refusal>
    ensures { Gives (meant.doubles_to_results doubles.now results.old) (answer_of result) results.new }
{
    testing::doubles_allowed(doubles, results.len())?;
    converting::results_into(doubles, results);
    Ok(())
}
