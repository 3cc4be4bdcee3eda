// The door: whether a press goes through.
#![tactic(auto)]

pub mod on_text; // the door on a procap text, for the desk firmware
pub mod on_value; // the door on a procap value
mod decide; // what stops a press
mod holding; // whether a fact holds in a state
