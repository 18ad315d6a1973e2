// Theorems alone: what a Stop stores is the same for every load as it was when a load kept a mark for each byte of the page (request E10).
#![tactic(auto)]
