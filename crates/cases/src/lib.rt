// The work of the program `check`: from the bytes of a case to the bytes that are printed.
#![tactic(auto)]

pub mod answering; // the whole way, from a case to what is printed
mod case; // all lines of a case
mod groups; // the groups of a case: its certificates
mod hex; // pairs of hex digits
mod lines; // lines that hold a time
mod reader; // a case that is read line by line
