// Instructions: one case for each group of the instruction table.
use crate::flags::Flags;
use crate::operand::{Operand, Register};

// Whether an operation works on whole words or on bytes, by the first digit of its word.
#[derive(Clone, Copy, PartialEq, Eq, Debug)]
pub enum Size {
    Word = 0o000000,
    Byte = 0o100000,
}

// The seven words with no field at all, by their words.
#[derive(Clone, Copy, PartialEq, Eq, Debug)]
pub enum Control {
    Halt = 0o000000,
    Wait = 0o000001,
    Rti = 0o000002,
    Bpt = 0o000003,
    Iot = 0o000004,
    Reset = 0o000005,
    Rtt = 0o000006,
}

// The operations of one operand that exist for words and for bytes, by the word without the first digit and the operand.
#[derive(Clone, Copy, PartialEq, Eq, Debug)]
pub enum SingleOperation {
    Clr = 0o005000,
    Com = 0o005100,
    Inc = 0o005200,
    Dec = 0o005300,
    Neg = 0o005400,
    Adc = 0o005500,
    Sbc = 0o005600,
    Tst = 0o005700,
    Ror = 0o006000,
    Rol = 0o006100,
    Asr = 0o006200,
    Asl = 0o006300,
}

// The operations of two operands that exist for words and for bytes, by the word without the first digit and the operands.
#[derive(Clone, Copy, PartialEq, Eq, Debug)]
pub enum DoubleOperation {
    Mov = 0o010000,
    Cmp = 0o020000,
    Bit = 0o030000,
    Bic = 0o040000,
    Bis = 0o050000,
}

// When a branch is taken, by the word without the offset.
#[derive(Clone, Copy, PartialEq, Eq, Debug)]
pub enum Condition {
    Br = 0o000400,
    Bne = 0o001000,
    Beq = 0o001400,
    Bge = 0o002000,
    Blt = 0o002400,
    Bgt = 0o003000,
    Ble = 0o003400,
    Bpl = 0o100000,
    Bmi = 0o100400,
    Bhi = 0o101000,
    Blos = 0o101400,
    Bvc = 0o102000,
    Bvs = 0o102400,
    Bcc = 0o103000,
    Bcs = 0o103400,
}

// Whether a flag word clears the flags of its mask or sets them, by the word without the mask.
#[derive(Clone, Copy, PartialEq, Eq, Debug)]
pub enum FlagChange {
    Clear = 0o000240,
    Set = 0o000260,
}

// The flags that a flag word names.
pub type FlagMask = Flags;

// What an instruction word says. Where a case has two operands, the source stands first.
#[derive(Clone, Copy, PartialEq, Eq, Debug)]
pub enum Instruction {
    Control(Control),
    Jump(Operand),
    Return(Register),
    Flags(FlagChange, FlagMask),
    SwapBytes(Operand),
    Branch(Condition, i8),
    Call(Register, Operand),
    Single(Size, SingleOperation, Operand),
    Mark(u8),
    SignExtend(Operand),
    ToStatus(Operand),
    FromStatus(Operand),
    Double(Size, DoubleOperation, Operand, Operand),
    Add(Operand, Operand),
    Subtract(Operand, Operand),
    ExclusiveOr(Register, Operand),
    Loop(Register, u8),
    Emulate(u8),
    Trap(u8),
    Reserved(u16),
}
