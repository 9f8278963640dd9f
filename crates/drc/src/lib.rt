// The check of a layout text against a job (design rule check): definitions in specs/, their theorems in proofs/. There is no code here.
#![tactic(auto)]
