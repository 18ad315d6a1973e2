// What a part is: its figures, and the codes that its chips answer.
#![tactic(auto)]

pub mod address;
pub mod part;
