// The driver's calls 7, 10, 15, 16, 107 and 110: whole numbers out.
#![tactic(auto)]

pub mod inner;
