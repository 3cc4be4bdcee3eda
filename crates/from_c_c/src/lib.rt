// Every call of the office and the desk, for C: tests/c/calls.h says them.
#![tactic(auto)]

pub mod desk; // the door on a procap value, and presses in a row
pub mod office; // verify, the direct check, the program's work, the texts
