// The image and the state that it says: the place of every field, numbers in bytes, bytes to a state by value and back. What a
// sound image says is a state that every step can start from (specs/SoundPipeline.antt).
#![tactic(auto)]

pub mod layout; // the place of every field of an image, an order block and a reply
pub mod reader; // numbers in a byte buffer, a reader for each width
pub mod writer; // numbers into a byte buffer, a writer for each width
pub mod block; // an order block by its parts
pub mod pipeline; // the state that code carries
pub mod decode; // what an image says
pub mod encode; // the image that says a state
