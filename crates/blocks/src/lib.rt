// Theorems about a transcript that comes in blocks: wherever it is cut, the answers are those of one reader over the whole text.
#![tactic(auto)]
