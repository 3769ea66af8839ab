#![tactic(auto)]

// The bytes that the writer puts for what its calls are given. Definitions and theorems only; no function runs.
