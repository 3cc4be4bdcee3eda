// What each step of a proof makes of a goal or of what was inferred; the walk over the steps stands above.
#![tactic(auto)]

pub mod either; // the steps of an "or" and of falsity
pub mod in_numbers; // judgements, rows and scopes whose times are held in numbers
pub mod judge; // what one step makes of a goal, or of what was inferred
pub mod numbers; // the same over plain numbers that a caller lends
pub mod rows; // assumptions and certificates as rows of numbers
