// Theorems only: the array of an AT24CM01 behaves as that of a 24CSM01 whose EWPM is 0 (request E7).
#![tactic(auto)]
