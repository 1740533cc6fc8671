// Theorems only: reading an image and writing it undo each other, and what a sound image says. Statements are in specs/, proofs in proofs/.
#![tactic(auto)]
