// The tests that calls share. Nothing here is a public call.
#![tactic(auto)]

mod bad;
pub mod inner;
