// The month file from its bytes to the sums of demand 3: theorems over the definitions of both. There is no code here.
#![tactic(auto)]
