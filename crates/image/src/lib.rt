// One chip's array as an Intel HEX file, in and out (request E1). Neither is an event: protection does not apply, and the state is asked,
// not changed.
#![tactic(auto)]

pub mod loading;
pub mod saving;
mod share;
