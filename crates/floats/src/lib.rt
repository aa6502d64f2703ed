// Laws of rounding in double precision, each with its range; no code.
#![tactic(auto)]
