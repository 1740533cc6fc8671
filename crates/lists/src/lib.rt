// Words and laws about lists that the code's layers share. No code: definitions in specs/, laws in proofs/.
#![tactic(auto)]
