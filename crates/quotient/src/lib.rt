// A whole number over a divisor, rounded down, and what that leaves. Nothing here is a public call.
#![tactic(auto)]

pub mod inner;
