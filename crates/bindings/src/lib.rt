// What a stored record can count on: definitions in specs/, theorems in proofs/Theorems.antt. There is no code here.

#![tactic(auto)]
