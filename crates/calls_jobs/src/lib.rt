// The driver's calls 5, 13, 14 and 100 to 102: the planner, the job record, and a plan by itself.
#![tactic(auto)]

pub mod inner;
