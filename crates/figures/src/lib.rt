// The checked figures of document 01, and figures of our own; no code.
#![tactic(auto)]
