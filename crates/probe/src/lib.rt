// Entry points for tests and the benchmark, over parts that the product's calls are made of. No product has them.
#![tactic(auto)]

pub mod images; // the first questions, and the codec
pub mod plans; // plan, from text to text and over records
