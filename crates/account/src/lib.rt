// Every byte leaves once: an account of the bytes of a port with handshake. There is no code here: definitions and theorems.
#![tactic(auto)]
