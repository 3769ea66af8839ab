// The walk of the crate reading shows exactly the readings of the grammar: theorems, no function.
#![tactic(auto)]
