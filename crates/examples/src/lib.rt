// The proved examples of paper 01: see specs/ and proofs/. There is no code here.
#![tactic(auto)]
