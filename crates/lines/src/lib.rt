// The lines that the program prints. Nothing here is a public call.
#![tactic(auto)]

pub mod inner;
