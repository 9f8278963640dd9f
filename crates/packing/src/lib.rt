// The choice of one track: definitions in specs/, the packing theorem in proofs/. There is no code here.
#![tactic(auto)]
