// The results of an edit by its taps. Nothing here is a public call.
#![tactic(auto)]

pub mod inner;
