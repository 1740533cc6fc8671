// Theorems only: due times hold, on states and on histories. Statements are in specs/, proofs in proofs/.
#![tactic(auto)]
