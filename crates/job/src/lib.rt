// A job that was read, smoothed. Nothing here is a public call.
#![tactic(auto)]

pub mod inner;
