// What alike means stands in specs/, the theorem in proofs/: there is nothing to run here.
#![tactic(auto)]
