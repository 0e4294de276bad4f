// The rows of a picture. Nothing here is a public call.
#![tactic(auto)]

pub mod inner;
