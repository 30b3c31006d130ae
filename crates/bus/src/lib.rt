// What the processor speaks to: memory boards and cabinet sides.
#![tactic(auto)]

pub mod access;
pub mod board;
pub mod cabinet;
pub mod cabinet_board;
pub mod exchange;
pub mod flat;
pub mod laws;
mod note;
pub mod notes;
pub mod panel;
pub mod refusal;
pub mod tap;
mod words;

pub use access::{load, store, store_byte};
pub use board::{Board, PAGE};
pub use cabinet::Cabinet;
pub use cabinet_board::CabinetBoard;
pub use exchange::{Exchange, Gone, Request};
pub use flat::FlatBoard;
pub use notes::Notes;
pub use panel::{LineBits, Panel};
pub use refusal::Refusal;
pub use tap::Tap;
