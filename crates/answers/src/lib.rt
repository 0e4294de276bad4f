// What a host is told.
#![tactic(auto)]

pub mod inner;
