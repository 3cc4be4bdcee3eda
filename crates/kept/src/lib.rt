// The demands as calls: each makes the calls for C with what it is given, answers whether the demand holds of what they answered, and is
// proved to answer yes.
#![tactic(auto)]

pub mod opening; // demand 3: what is issued opens exactly where the direct check accepts
pub mod spelling; // demand 2: a text has one spelling
