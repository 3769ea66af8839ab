// What the crate unpadded finds is what the grammar says: theorems, no function.
#![tactic(auto)]
