// Document 01, "Sound means", clause by clause from a row of eight entries to the whole image, and the questions that every
// call asks first, of which the last is whether the image is sound.
#![tactic(auto)]

pub mod row_figures; // the largest entry of a row, and the sum of those that count in the delay bound
pub mod rows; // what is asked of the rows of a record
pub mod row_limits; // what may stand at each place of a row, as rows of numbers
pub mod records; // one live order's record, each clause by its name
pub mod record_flaws; // the records of all live orders, gathered place by place
pub mod counted; // an image whose counts are in range
pub mod tickets; // live tickets in order
pub mod zeros; // zero bytes and unused records
pub mod services; // the station entries
pub mod whole; // every clause of an image
pub mod questions; // questions 1 to 4
