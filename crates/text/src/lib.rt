// Numbers as text. Nothing here is a public call.
#![tactic(auto)]

pub mod inner;
