// The check of what route writes: theorems in proofs/. There is no code here.
#![tactic(auto)]
