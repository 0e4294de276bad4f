// One pass down all columns, by whole rows: each row but the first from the row above it and four rows of what is read.
ghost use Rattle.std.specs.Prelude.{◌≡◌, ◌+◌, ◌*◌, ◌<◌, length, take};
ghost use Rattle.plan.specs.Structs.{stage_of};
ghost use Rattle.plan.specs.Tested.{Tested};
ghost use Rattle.columns.specs.Ready.{Around, Passable, passed, StepFits, stepped};

use crate::first::{first_row, row_at};
use extension::inner::{next, periods_before};
use plan::Plan;
use plan::inner::Sides;

// A cell of the pass from v, the one above it: what changes at the edges of the window, and within.
fn step(plan: Plan, v: i64, edges: i64, within: i64) -> i64
    requires tested { Tested plan }
    requires fits { StepFits (stage_of plan) v edges within }
    ensures { result ≡ stepped (stage_of plan) v edges within }
{
    let edge = plan.edge as i64;
    let rise = (plan.inner - plan.edge) as i64;
    v + edge * edges + rise * within
}

// Where the four rows begin that one row of the pass differs by from the one above it: at the edges of the window, and within.
#[derive(Clone, Copy)]
struct Starts {
    low: usize,
    leaves: usize,
    enters: usize,
    high: usize,
}

// Row y + 1 of the pass, where those before it are written. No cell of it waits for another.
fn next_row(plan: Plan, sides: Sides, y: usize, rows: Starts, src: &[i64], dst: &mut [i64])
    requires passable { Passable plan sides.width sides.height src.now (length dst.old) }
    requires around { Around plan sides.width sides.height y rows.low rows.leaves rows.enters rows.high }
    requires dst_value { take (y * sides.width + sides.width) dst.old ≡ take (y * sides.width + sides.width) (passed plan sides.width sides.height src.now) }
    ensures { take (y * sides.width + sides.width + sides.width) dst.new ≡ take (y * sides.width + sides.width + sides.width) (passed plan sides.width sides.height src.now) }
{
    let from = y * sides.width;
    let to = from + sides.width;
    // indices: four rows of one slice and two of another
    for x in 0..sides.width {
        let edges = src[rows.high + x] - src[rows.low + x];
        let within = src[rows.enters + x] - src[rows.leaves + x];
        dst[to + x] = step(plan, dst[from + x], edges, within);
    }
}

// One pass of src into dst, every cell of it. Two rows walk the extension: low, before the window, and enters, after it.
// `Passable` is a clause: it speaks of source, plan, sides and room together, and its largest size is its prover's choice, so no field of one argument can hold it.
pub fn pass(plan: Plan, sides: Sides, src: &[i64], dst: &mut [i64])
    requires { Passable plan sides.width sides.height src.now (length dst.old) }
    ensures { dst.new ≡ passed plan sides.width sides.height src.now }
{
    let height = sides.height;
    let radius = periods_before(plan.radius as usize, height);
    first_row(plan, radius, sides, src, &mut dst[..sides.width]);
    let mut low = 2 * height - 1 - radius.rest;
    let mut enters = next(radius.rest, height);
    for y in 0..height - 1 {
        let leaves = next(low, height);
        let high = next(enters, height);
        let rows = Starts {
            low: row_at(low, sides),
            leaves: row_at(leaves, sides),
            enters: row_at(enters, sides),
            high: row_at(high, sides),
        };
        next_row(plan, sides, y, rows, src, dst);
        low = leaves;
        enters = high;
    }
}
