// The tests of outputs. Nothing here is a public call.
#![tactic(auto)]

pub mod inner;
mod quotients;
