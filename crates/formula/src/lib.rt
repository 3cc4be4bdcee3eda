// Formulas as they stand in bytes: well formed or not, taken apart, compared.
#![tactic(auto)]

mod binders; // the binders around a place
pub mod compare; // whether two formulas are the same
pub mod ends; // whether a part holds one formula
pub mod numbers; // a judgement whose times are held in numbers
pub mod parts; // tags, places and ends
pub mod terms; // the terms put in for the binders passed
