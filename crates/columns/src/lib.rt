// One pass down all columns of a picture. Nothing here is a public call.
#![tactic(auto)]

mod first;
pub mod inner;
