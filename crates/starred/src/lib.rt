// Document 01's starred boards: their list in specs/, the one fact about them in proofs/. There is no code here.
#![tactic(auto)]
