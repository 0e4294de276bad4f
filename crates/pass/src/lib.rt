// A pass over a series. Nothing here is a public call.
#![tactic(auto)]

mod ends;
pub mod inner;
mod middle;
mod window;
