// The driver's stream: words in, lines out.
#![tactic(auto)]

pub mod inner;
