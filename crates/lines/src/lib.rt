// Lines of text, byte for byte: fields, and the reader of a line.
#![tactic(auto)]

pub mod fields;
pub mod reading;
