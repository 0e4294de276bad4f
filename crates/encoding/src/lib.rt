// Numbers as bytes, and a cursor that writes them, for the layers above. Nothing here is a public call.
#![tactic(auto)]

pub mod inner;
