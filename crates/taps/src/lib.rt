// The taps of a plan and the weights of samples, for the calls that go by the reach. Nothing here is a public call.
#![tactic(auto)]

pub mod inner;
mod lent;
