// The laws of the CTC's definitions alone are in proofs/; what they speak of is in specs/. There is no code here.
#![tactic(auto)]
