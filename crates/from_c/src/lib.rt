// Every call of the office and the desk on numbers and byte slices, so that C can make it: for tests from outside, and for measuring.
#![tactic(auto)]

pub mod desk; // the door on a procap value, and presses in a row
pub mod office; // verify, the direct check, the program's work, the texts
pub mod packing; // an answer as one number, and what a caller takes out of it
mod numbers; // numbers and terms of a fixed width
mod pairs; // pairs of principals in bytes
mod records; // certificate records in bytes
mod row; // things that stand in a row of bytes, and those of them that are lent on
mod values; // procap values in bytes
