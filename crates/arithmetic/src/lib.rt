// What every operation makes of its operands: results, flags, branch conditions.
#![tactic(auto)]

pub mod branch;
pub mod laws;
pub mod one_operand;
pub mod outcome;
pub mod sign;
pub mod status;
mod sums;
pub mod two_operands;
mod width;
pub mod word;

pub use branch::taken;
pub use isa::{Flags, flags};
pub use laws::arithmetic_laws;
pub use one_operand::single;
pub use outcome::Outcome;
pub use sign::{branch_distance, sign_spread};
pub use status::{change_flags, from_status, to_status};
pub use two_operands::double;
pub use word::{add, exclusive_or, sign_extend, subtract, swap_bytes};
