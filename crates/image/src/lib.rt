// The image of a board as programs read it from a file, and the arguments that say which part of it is meant.
#![tactic(auto)]

pub mod arguments;
pub mod bytes;
mod numerals;
pub mod refusal;
pub mod words;

pub use arguments::{AddressFault, CountFault, parse_address, parse_count};
pub use bytes::{Image, image_of};
pub use refusal::Refusal;
pub use words::{next_address, word_at, words_at};
