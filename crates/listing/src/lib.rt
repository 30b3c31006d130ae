// Listings: an instruction as a line of text, and a line of text as an instruction.
#![tactic(auto)]

mod forms;
mod instructions;
pub mod lister;
mod names;
mod numbers;
mod pieces;
pub mod refusal;
mod targets;
pub mod text_line;
mod writer;

pub use lister::{Listed, list};
pub use numbers::octal;
pub use refusal::Refusal;
