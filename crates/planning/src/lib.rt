// The plan of a whole job, track after track: definitions in specs/, its theorems in proofs/. There is no code here.
#![tactic(auto)]
