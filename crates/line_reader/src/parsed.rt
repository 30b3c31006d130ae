// What parts of a line were read as.
use isa::{Condition, Control, DoubleOperation, Operand, SingleOperation};

// An operand, its number or 0, and how many characters it took.
#[derive(Clone, Copy)]
pub struct Parsed {
    pub operand: Operand,
    pub number: u16,
    pub length: usize,
}

// A mnemonic, by what stands behind it.
#[derive(Clone, Copy)]
pub enum Mnemonic {
    Control(Control),
    // The word itself, as it stands in memory, that clears or sets the flags of this name.
    Flags(u16),
    Branch(Condition),
    Return,
    Loop,
    Number(Numbered),
    One(OneOperand),
    Two(TwoOperands),
    Register(RegisterFirst),
}

#[derive(Clone, Copy)]
pub enum Numbered {
    Mark,
    Emulate,
    Trap,
    Data,
}

#[derive(Clone, Copy)]
pub enum OneOperand {
    Jump,
    SwapBytes,
    SignExtend,
    ToStatus,
    FromStatus,
    Single(SingleOperation),
}

#[derive(Clone, Copy)]
pub enum TwoOperands {
    Add,
    Subtract,
    Double(DoubleOperation),
}

// A register and an operand.
#[derive(Clone, Copy)]
pub enum RegisterFirst {
    Call,
    ExclusiveOr,
}
