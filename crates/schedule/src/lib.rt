// Theorems only: what the definitions of `model` mean for the stations. Statements are in specs/, proofs in proofs/.
#![tactic(auto)]
