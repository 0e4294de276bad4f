// The driver's calls 1, 2 and 4: smoothing, and one point of it.
#![tactic(auto)]

pub mod inner;
