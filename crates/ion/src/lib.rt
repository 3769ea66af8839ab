#![tactic(auto)]

// Ion 1.0: the data model and the grammar of the binary encoding. Definitions and theorems only; no function runs.
