// A run cut by a save and its restore: there is no code here. The theorem is in proofs/.
#![tactic(auto)]
