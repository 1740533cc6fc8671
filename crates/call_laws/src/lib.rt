// Theorems only: what holds of the calls on any image, whatever is lent. Statements are in specs/, proofs in proofs/.
#![tactic(auto)]

pub mod opens; // every open
pub mod offers; // every offer and quote
pub mod formats; // every offer and quote by paper format
pub mod advances; // every advance
