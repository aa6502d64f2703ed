// Inputs that each call accepts, and one for each of its refusals; no code.
#![tactic(auto)]
