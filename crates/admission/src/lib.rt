// Quote and offer: an order block, what it would add to the interference sets (document 01: company) of the live orders, the
// margins then, the decision by them, and an acceptance written into the image.
#![tactic(auto)]

pub mod block; // an order block, and what is asked of it alone
pub mod formats; // the block that an order by paper format stands for
pub mod interference; // what a member adds to an interference set
pub mod margins; // margins of the arrival and of the live orders with it
pub mod decision; // the answer by these margins, and its reply
pub mod order_questions; // questions 6 to 12
pub mod acceptance; // the image with the arrival accepted
