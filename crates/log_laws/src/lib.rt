// Theorems only: what a rerun of a log means. Statements are in specs/, proofs in proofs/.
#![tactic(auto)]
