// The stored results of an edit. Nothing here is a public call.
#![tactic(auto)]

pub mod inner;
