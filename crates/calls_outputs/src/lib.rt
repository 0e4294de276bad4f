// The driver's calls 6, 8, 9, 11, 12, 25 and 26: doubles in, doubles and summaries out, and results as doubles and back.
#![tactic(auto)]

pub mod inner;
