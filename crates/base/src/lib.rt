// What the other crates share. Nothing about EEPROMs.
#![tactic(auto)]

pub mod bit;
pub mod logic;
pub mod number;
pub mod share;
pub mod word;
