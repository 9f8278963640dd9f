// Sound layouts, and rival sequences and sums of drawn wires: definitions in specs/, their theorems in proofs/. There is no code here.
#![tactic(auto)]
