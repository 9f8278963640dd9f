// The text that route writes for a job: its definition in specs/, its theorems in proofs/. There is no code here.
#![tactic(auto)]
