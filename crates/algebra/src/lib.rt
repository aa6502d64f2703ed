// Laws of whole numbers, and rounding to nearest.
#![tactic(auto)]
