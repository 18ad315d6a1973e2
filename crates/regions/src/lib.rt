// Addresses in a region, which is an array or a security register: its pages, its zones, what sets a counter to it.
#![tactic(auto)]

pub mod counter;
pub mod page;
pub mod zone;
