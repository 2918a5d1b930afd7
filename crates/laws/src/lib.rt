// The laws stand in proofs/: there is nothing to run here.
#![tactic(auto)]
