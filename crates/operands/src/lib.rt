// The processor's state, and how its operands are found, read and written.
#![tactic(auto)]

mod machine;
mod operand;
mod state;

pub use machine::Machine;
pub use operand::{Location, fetch, give, locate, take};
pub use state::{Life, Processor, Requests};
