// The instruction set of the K1801VM1: what an instruction word says, and the word for an instruction.
#![tactic(auto)]

pub mod decoding;
pub mod encoding;
pub mod flags;
pub mod further;
pub mod instruction;
pub mod operand;

pub use decoding::decode;
pub use encoding::encode;
pub use flags::Flags;
pub use instruction::{
    Condition, Control, DoubleOperation, FlagChange, FlagMask, Instruction, SingleOperation, Size,
};
pub use operand::{Operand, Register};
