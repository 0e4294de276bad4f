// A host's doubles as the numbers that calls take, and whether a record's fields hold them. What is no such number becomes one that no limit allows, so that the call itself refuses it.
ghost use Rattle.std.specs.Prelude.{◌≡◌, IfOk};
ghost use Rattle.meaning.specs.Refusals.{first_of};
ghost use Rattle.meaning.specs.Arguments.{whole_of, count_of, plan_in};
ghost use Rattle.meaning.specs.HostRecord.{field_rows};
ghost use Rattle.plan.specs.Structs.{answer_of};
ghost use Rattle.arguments.specs.Numbers.{numbers_of};
ghost use Rattle.arguments.specs.Fields.{AreFields};

use plan::{Plan, Raster, Refusal};
use record::Fields;

// Above every limit. A number and no `Option`: the definition `count_of` gives it, so that the call refuses by its own row.
const REFUSED: u64 = 9007199254740992;

// The double as a whole number, negative ones too.
pub fn whole(x: f64) -> i64
    ensures { result ≡ whole_of x }
{
    if samples::inner::takes(Plan::MAX_RESULT, x) {
        return samples::inner::whole_of(x);
    }
    REFUSED as i64
}

// The double as a number from 0 on.
pub fn count(x: f64) -> u64
    ensures { result ≡ count_of x }
{
    u64::try_from(whole(x)).unwrap_or(REFUSED)
}

// Radius, inner weight, edge weight and passes.
pub fn plan(numbers: &[f64]) -> Plan
    ensures { numbers_of result ≡ plan_in numbers.now }
{
    let &[radius, inner, edge, passes] = numbers else {
        return Plan::new(REFUSED, REFUSED, REFUSED, REFUSED);
    };
    Plan::new(count(radius), count(inner), count(edge), count(passes))
}

// A picture's two plans, its bound and its sides.
pub fn raster(across: &[f64], down: &[f64], bound: f64, width: f64, height: f64) -> Raster
    ensures across { numbers_of result.across ≡ plan_in across.now }
    ensures down { numbers_of result.down ≡ plan_in down.now }
    ensures bound { result.bound ≡ count_of bound }
    ensures width { result.width ≡ count_of width }
    ensures height { result.height ≡ count_of height }
{
    Raster {
        across: plan(across),
        down: plan(down),
        bound: count(bound),
        width: count(width),
        height: count(height),
    }
}

// The numbers of a record, each of the width of its field. Rows 1 to 5 of the writer: a number that its field cannot hold.
pub fn fields(plan: Plan, bound: u64) -> Result<Fields, Refusal>
    ensures answer { answer_of result ≡ first_of (field_rows (numbers_of plan) bound) }
    ensures same { IfOk result (λ f. AreFields f (numbers_of plan) bound) }
{
    let passes = u8::try_from(plan.passes).ok().ok_or(Refusal::Passes)?;
    let radius = u16::try_from(plan.radius).ok().ok_or(Refusal::Radius)?;
    let inner = u8::try_from(plan.inner).ok().ok_or(Refusal::InnerWeight)?;
    let edge = u8::try_from(plan.edge).ok().ok_or(Refusal::EdgeWeight)?;
    let bound = u32::try_from(bound).ok().ok_or(Refusal::Bound)?;
    Ok(Fields {
        radius,
        inner,
        edge,
        passes,
        bound,
    })
}
