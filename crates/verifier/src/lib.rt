// The office's calls: verify, and the direct check.
#![tactic(auto)]

pub mod certificates; // the lent certificate records
pub mod verify; // the calls
