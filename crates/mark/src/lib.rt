#![tactic(auto)]

// The out-of-calendar mark of document 02, Item 2. Definitions and theorems only; no function runs.
