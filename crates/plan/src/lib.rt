// A plan, its limits, and why a call is refused.
#![tactic(auto)]

ghost use Rattle.std.specs.Prelude.{◌≡◌};
ghost use Rattle.meaning.specs.Refusals.{plan_divisor, plan_reach};
ghost use Rattle.plan.specs.Structs.{stages_of, refused};

pub mod inner;

// Radius r, inner weight b, edge weight a, passes K. Any numbers: a call that takes a plan judges it.
#[derive(Clone, Copy)]
pub struct Plan {
    pub radius: u64,
    pub inner: u64,
    pub edge: u64,
    pub passes: u64,
}

// A picture: rows are smoothed by the plan across, columns by the plan down.
// A series' plan, bound and position have no struct, nor have the slices that a call is lent: each call would only take it apart again.
#[derive(Clone, Copy)]
pub struct Raster {
    pub across: Plan,
    pub down: Plan,
    pub bound: u64,
    pub width: u64,
    pub height: u64,
}

// Why a call is refused: what is not allowed. Of what applies it is the one with the lowest number.
#[derive(Clone, Copy, Debug, PartialEq, Eq)]
pub enum Refusal {
    Passes,
    Radius,
    InnerWeight,
    EdgeWeight,
    Bound,
    // the bound times the divisor
    Product,
    // a length, width, height or cell count
    Size,
    // of a lent slice
    Length,
    Position,
    // of an edit
    NewValue,
    // of the samples tested, the first that is not acceptable, and how many are not
    BadSample { position: usize, bad: usize },
    // the first result that has, or would get, too large a size
    BadResult { position: usize },
    Sigma,
    Record,
    Mode,
}

impl Refusal {
    // What hosts and programs tell. 15 is not in use.
    pub fn number(self) -> u64
        ensures { result ≡ (refused self).number }
    {
        match self {
            Refusal::Passes => 1,
            Refusal::Radius => 2,
            Refusal::InnerWeight => 3,
            Refusal::EdgeWeight => 4,
            Refusal::Bound => 5,
            Refusal::Product => 6,
            Refusal::Size => 7,
            Refusal::Length => 8,
            Refusal::Position => 9,
            Refusal::NewValue => 10,
            Refusal::BadSample { .. } => 11,
            Refusal::BadResult { .. } => 12,
            Refusal::Sigma => 13,
            Refusal::Record => 14,
            Refusal::Mode => 21,
        }
    }

    // 0 of a refusal that is of no one place.
    pub fn position(self) -> usize
        ensures { result ≡ (refused self).position }
    {
        match self {
            Refusal::BadSample { position, .. } => position,
            Refusal::BadResult { position } => position,
            _ => 0,
        }
    }

    // 0 of a refusal that is not of samples.
    pub fn bad(self) -> usize
        ensures { result ≡ (refused self).bad }
    {
        match self {
            Refusal::BadSample { bad, .. } => bad,
            _ => 0,
        }
    }
}

impl Plan {
    // Passes, inner weight, bound, lengths and sides go from this; radius and edge weight from 0.
    pub const LEAST: u64 = 1;

    pub const MAX_PASSES: u64 = 8;

    pub const MAX_RADIUS: u64 = 1023;

    pub const MAX_INNER: u64 = 255;

    pub const MAX_BOUND: u64 = 2147483647;

    // of the bound times the divisor
    pub const MAX_RESULT: u64 = 9007199254740991;

    // of a series, and of a picture's cells
    pub const MAX_LENGTH: u64 = 65536;

    pub const MAX_SIDE: u64 = 4096;

    pub fn new(radius: u64, inner: u64, edge: u64, passes: u64) -> Plan
        ensures { result ≡ record { radius = radius; inner = inner; edge = edge; passes = passes } }
    {
        Plan {
            radius,
            inner,
            edge,
            passes,
        }
    }

    // The sum of the K-fold kernel, D^K. Of a plan that is not accepted under any bound, 0: no `Option`, as hosts are told this number.
    pub fn divisor(self) -> u64
        ensures { result ≡ plan_divisor (stages_of self) }
    {
        if inner::allowed(self).is_err() {
            return 0;
        }
        let product = inner::scaled(1, self);
        if Plan::MAX_RESULT < product {
            return 0;
        }
        product
    }

    // How far a sample is felt, K(r+1), or K·r where the edge weight is 0. Of a plan that is not accepted under any bound, 0.
    pub fn reach(self) -> u64
        ensures { result ≡ plan_reach (stages_of self) }
    {
        if self.divisor() == 0 {
            return 0;
        }
        self.passes * inner::tap_reach(self)
    }
}
