// Who is at least as strong as whom, found once for all pairs, and then told in a few steps.
#![tactic(auto)]

pub mod asking;
pub mod finding;
mod lists;
mod marks;
mod names;
pub mod table;

// How many pairs are taken.
pub const MOST_PAIRS: usize = 128;

// How many numbers the strengths take: the strongers and the weakers, each with a count, and two words of marks for each stronger.
pub const STRENGTH_NUMBERS: usize = 514;

// Where the weakers begin, behind the strongers.
pub(crate) const WEAKERS_AT: usize = 129;

// Where the marks begin, behind both.
pub(crate) const MARKS_AT: usize = 258;
