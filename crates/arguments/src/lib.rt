// What a host's doubles are taken as.
#![tactic(auto)]

pub mod inner;
