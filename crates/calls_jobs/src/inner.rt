// The job record; a plan by itself and the planner.
pub mod plans;
pub mod records;
