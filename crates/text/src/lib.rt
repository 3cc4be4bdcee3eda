// The procap text: its reader and its writer.
#![tactic(auto)]

pub mod line; // bytes, numbers and lines of the text
pub mod request; // the three lines of a request
pub mod reader; // from a text to a procap
pub mod writer; // from a procap to its text
pub mod facts; // the line of a fact
mod fact_places; // where the lines of facts stand
mod spell; // a procap spelled into a buffer that is long enough
