// Theorems only: what the bench promises of its bus (docs/PROMISES.md).
#![tactic(auto)]
