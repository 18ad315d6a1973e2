#![tactic(auto)]

pub mod checks;
pub mod digit;
pub mod fields;
pub mod writing;
