// Figures as text, byte for byte: written to a list of bytes, and read from the bytes of a field.
#![tactic(auto)]

pub mod reading;
pub mod writing;
