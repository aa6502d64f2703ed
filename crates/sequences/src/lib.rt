// Laws of tabulated lists and of the kinds of loops; no code.
#![tactic(auto)]
