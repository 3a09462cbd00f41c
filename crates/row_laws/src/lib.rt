// What is proved of a row of devices (W-212): there is no code here. The theorems are in proofs/.
#![tactic(auto)]
