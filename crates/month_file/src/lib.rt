// The month file (document 01, 'The file and its statement'): a machine that takes the file's bytes in parts of any size. What it keeps lies
// in lent lists.
#![tactic(auto)]

mod collecting;
pub mod feeding;
pub mod finishing;
