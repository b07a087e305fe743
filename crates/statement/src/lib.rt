// The statement of a month, byte for byte (document 01, 'The file and its statement').
#![tactic(auto)]

pub mod writing;
