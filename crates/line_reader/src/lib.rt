// Reading a line of a listing back into the words that it shows.
#![tactic(auto)]

pub mod back;
mod candidates;
mod characters;
mod fields;
mod mnemonics;
mod operands;
mod parsed;

pub use back::{ReadBack, list_and_read_back, read_back};
