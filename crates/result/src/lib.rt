// The result at one place. Nothing here is a public call.
#![tactic(auto)]

pub mod inner;
