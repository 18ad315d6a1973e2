// Theorems only: chips do not disturb each other (docs/PROMISES.md, demand 3).
#![tactic(auto)]
