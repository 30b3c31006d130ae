// What each instruction does with registers, status word, memory and cabinet side.
#![tactic(auto)]

mod change;
mod control;
mod ending;
mod instruction;
mod laws;
mod stack;
mod transfer;

pub use ending::{Ending, Trap};
pub use instruction::{execute, execute_on};
pub use laws::register_words_stay_inside;
pub use stack::{push, push_on};
