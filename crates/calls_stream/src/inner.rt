// Standard input and standard output.
pub mod checksum;
pub mod element;
pub mod stream;
