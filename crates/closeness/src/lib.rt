// The exact merge, and the theorem that the merge recipe stays within five eighths of it; laws only.
#![tactic(auto)]
