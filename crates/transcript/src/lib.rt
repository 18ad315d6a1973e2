// The text of events: digits and lines (paper, "The transcript").
#![tactic(auto)]

pub mod digit;
pub mod frame;
