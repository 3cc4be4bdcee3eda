// The demands: theorems over the definitions of the calls, with no code of its own.
#![tactic(auto)]
