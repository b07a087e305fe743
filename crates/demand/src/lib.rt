// Demand 3 and the worked hours: theorems over the definitions that the month's contracts cite. There is no code here; a crate of its own, so
// that a change of a call's code is checked without them.
#![tactic(auto)]
