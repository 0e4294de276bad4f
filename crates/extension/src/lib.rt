// Reading a series beyond its ends. Nothing here is a public call.
#![tactic(auto)]

pub mod inner;
