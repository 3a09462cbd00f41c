// That every public call has one answer only: see proofs/. There is no code here.
#![tactic(auto)]
