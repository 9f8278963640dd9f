// Statements and tests over the elements of a list: definitions in specs/, their laws in proofs/. There is no code here.
#![tactic(auto)]
