// Cells of one slice made from those of another. Nothing here is a public call.
#![tactic(auto)]

pub mod inner;
