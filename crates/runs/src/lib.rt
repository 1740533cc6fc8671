// Theorems only: over every list of calls the image says what the history says. Proofs are in proofs/; what they give is stated in `claims` and `log_model`.
#![tactic(auto)]
