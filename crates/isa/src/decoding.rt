// What an instruction word says, digit by digit. Digits are matched: nothing derives the way back from a number to its variant.
ghost use Rattle.std.specs.Prelude.{◌≡◌};
ghost use Rattle.isa.specs.Reading.{register, mode, operand, offset, mask, double, five, low_condition, low_branch, high_condition, high_branch};
ghost use Rattle.isa.specs.Reading.{control, returns, return_or_flags, zeros, word_sixes, byte_sixes, low, traps, high, sevens, reading};

use crate::flags::Flags;
use crate::instruction::{
    Condition, Control, DoubleOperation, FlagChange, Instruction, SingleOperation, Size,
};
use crate::operand::{Operand, Register};

// The instruction that a word is, by its first two digits: each word has one.
#[tactic(auto, unfolding(crate::specs::Reading::reading))]
pub fn decode(word: u16) -> Instruction
    ensures { result ≡ reading word }
{
    match word / 0o10000 {
        0o00 => low_in(word),
        0o01 => double_in(Size::Word, DoubleOperation::Mov, word),
        0o02 => double_in(Size::Word, DoubleOperation::Cmp, word),
        0o03 => double_in(Size::Word, DoubleOperation::Bit, word),
        0o04 => double_in(Size::Word, DoubleOperation::Bic, word),
        0o05 => double_in(Size::Word, DoubleOperation::Bis, word),
        0o06 => Instruction::Add(operand_in(word / 0o100), operand_in(word)),
        0o07 => seven_in(word),
        0o10 => high_in(word),
        0o11 => double_in(Size::Byte, DoubleOperation::Mov, word),
        0o12 => double_in(Size::Byte, DoubleOperation::Cmp, word),
        0o13 => double_in(Size::Byte, DoubleOperation::Bit, word),
        0o14 => double_in(Size::Byte, DoubleOperation::Bic, word),
        0o15 => double_in(Size::Byte, DoubleOperation::Bis, word),
        0o16 => Instruction::Subtract(operand_in(word / 0o100), operand_in(word)),
        _ => Instruction::Reserved(word),
    }
}

fn register_at(digit: u16) -> Register
    ensures { result ≡ register digit }
{
    match digit {
        0 => Register::R0,
        1 => Register::R1,
        2 => Register::R2,
        3 => Register::R3,
        4 => Register::R4,
        5 => Register::R5,
        6 => Register::Sp,
        _ => Register::Pc,
    }
}

// The operand of a mode digit and a register digit.
fn operand_at(mode_digit: u16, register_digit: u16) -> Operand
    ensures { result ≡ mode mode_digit (register register_digit) }
{
    let register = register_at(register_digit);
    match mode_digit {
        0 => Operand::Direct(register),
        1 => Operand::Deferred(register),
        2 => Operand::Increment(register),
        3 => Operand::IncrementDeferred(register),
        4 => Operand::Decrement(register),
        5 => Operand::DecrementDeferred(register),
        6 => Operand::Index(register),
        _ => Operand::IndexDeferred(register),
    }
}

// The operand in the two last digits of a word.
fn operand_in(word: u16) -> Operand
    ensures { result ≡ operand word }
{
    operand_at(word / 0o10 % 8, word % 8)
}

// The signed offset in the low byte of a word.
fn offset_in(word: u16) -> i8
    ensures { result ≡ offset word }
{
    ((word % 0o400) as u8).cast_signed()
}

fn double_in(size: Size, operation: DoubleOperation, word: u16) -> Instruction
    ensures { result ≡ double size operation word }
{
    Instruction::Double(size, operation, operand_in(word / 0o100), operand_in(word))
}

fn single_in(size: Size, operation: SingleOperation, word: u16) -> Instruction
    ensures { result ≡ Instruction.Single size operation (operand word) }
{
    Instruction::Single(size, operation, operand_in(word))
}

fn five_at(digit: u16) -> SingleOperation
    ensures { result ≡ five digit }
{
    match digit {
        0 => SingleOperation::Clr,
        1 => SingleOperation::Com,
        2 => SingleOperation::Inc,
        3 => SingleOperation::Dec,
        4 => SingleOperation::Neg,
        5 => SingleOperation::Adc,
        6 => SingleOperation::Sbc,
        _ => SingleOperation::Tst,
    }
}

fn low_condition_at(step: u16) -> Condition
    ensures { result ≡ low_condition step }
{
    match step {
        0..=1 => Condition::Br,
        2 => Condition::Bne,
        3 => Condition::Beq,
        4 => Condition::Bge,
        5 => Condition::Blt,
        6 => Condition::Bgt,
        _ => Condition::Ble,
    }
}

// The branches from 000400 on.
fn low_branch_in(word: u16) -> Instruction
    ensures { result ≡ low_branch word }
{
    Instruction::Branch(low_condition_at(word / 0o400), offset_in(word))
}

fn high_condition_at(step: u16) -> Condition
    ensures { result ≡ high_condition step }
{
    match step {
        0 => Condition::Bpl,
        1 => Condition::Bmi,
        2 => Condition::Bhi,
        3 => Condition::Blos,
        4 => Condition::Bvc,
        5 => Condition::Bvs,
        6 => Condition::Bcc,
        _ => Condition::Bcs,
    }
}

// The branches from 100000 on.
fn high_branch_in(word: u16) -> Instruction
    ensures { result ≡ high_branch word }
{
    Instruction::Branch(high_condition_at(word / 0o400 % 8), offset_in(word))
}

fn control_in(word: u16) -> Instruction
    ensures { result ≡ control word }
{
    match word {
        0 => Instruction::Control(Control::Halt),
        1 => Instruction::Control(Control::Wait),
        2 => Instruction::Control(Control::Rti),
        3 => Instruction::Control(Control::Bpt),
        4 => Instruction::Control(Control::Iot),
        5 => Instruction::Control(Control::Reset),
        6 => Instruction::Control(Control::Rtt),
        _ => Instruction::Reserved(word),
    }
}

fn return_in(word: u16) -> Instruction
    ensures { result ≡ returns word }
{
    if word % 0o20 < 0o10 {
        Instruction::Return(register_at(word % 8))
    } else {
        Instruction::Reserved(word)
    }
}

// The words 000200 to 000277.
fn return_or_flags_in(word: u16) -> Instruction
    ensures { result ≡ return_or_flags word }
{
    match word / 0o20 % 4 {
        0 => return_in(word),
        2 => Instruction::Flags(FlagChange::Clear, Flags::from_bits(word)),
        3 => Instruction::Flags(FlagChange::Set, Flags::from_bits(word)),
        _ => Instruction::Reserved(word),
    }
}

// The words 000....
fn zero_in(word: u16) -> Instruction
    ensures { result ≡ zeros word }
{
    match word / 0o100 % 8 {
        0 => control_in(word),
        1 => Instruction::Jump(operand_in(word)),
        2 => return_or_flags_in(word),
        3 => Instruction::SwapBytes(operand_in(word)),
        _ => low_branch_in(word),
    }
}

// The words 006....
fn word_six_in(word: u16) -> Instruction
    ensures { result ≡ word_sixes word }
{
    match word / 0o100 % 8 {
        0 => single_in(Size::Word, SingleOperation::Ror, word),
        1 => single_in(Size::Word, SingleOperation::Rol, word),
        2 => single_in(Size::Word, SingleOperation::Asr, word),
        3 => single_in(Size::Word, SingleOperation::Asl, word),
        4 => Instruction::Mark((word % 0o100) as u8),
        7 => Instruction::SignExtend(operand_in(word)),
        _ => Instruction::Reserved(word),
    }
}

// The words 106....: no twin of those of 006...., since MTPS and MFPS stand where MARK and SXT do there.
fn byte_six_in(word: u16) -> Instruction
    ensures { result ≡ byte_sixes word }
{
    match word / 0o100 % 8 {
        0 => single_in(Size::Byte, SingleOperation::Ror, word),
        1 => single_in(Size::Byte, SingleOperation::Rol, word),
        2 => single_in(Size::Byte, SingleOperation::Asr, word),
        3 => single_in(Size::Byte, SingleOperation::Asl, word),
        4 => Instruction::ToStatus(operand_in(word)),
        7 => Instruction::FromStatus(operand_in(word)),
        _ => Instruction::Reserved(word),
    }
}

// The words 00.....
fn low_in(word: u16) -> Instruction
    ensures { result ≡ low word }
{
    match word / 0o1000 % 8 {
        0 => zero_in(word),
        1..=3 => low_branch_in(word),
        4 => Instruction::Call(register_at(word / 0o100 % 8), operand_in(word)),
        5 => single_in(Size::Word, five_at(word / 0o100 % 8), word),
        6 => word_six_in(word),
        _ => Instruction::Reserved(word),
    }
}

// EMT and TRAP, 104000 to 104777.
fn trap_in(word: u16) -> Instruction
    ensures { result ≡ traps word }
{
    let byte = (word % 0o400) as u8;
    if word % 0o1000 < 0o400 {
        Instruction::Emulate(byte)
    } else {
        Instruction::Trap(byte)
    }
}

// The words 10.....
fn high_in(word: u16) -> Instruction
    ensures { result ≡ high word }
{
    match word / 0o1000 % 8 {
        0..=3 => high_branch_in(word),
        4 => trap_in(word),
        5 => single_in(Size::Byte, five_at(word / 0o100 % 8), word),
        6 => byte_six_in(word),
        _ => Instruction::Reserved(word),
    }
}

// The words 07.....
fn seven_in(word: u16) -> Instruction
    ensures { result ≡ sevens word }
{
    match word / 0o1000 % 8 {
        4 => Instruction::ExclusiveOr(register_at(word / 0o100 % 8), operand_in(word)),
        7 => Instruction::Loop(register_at(word / 0o100 % 8), (word % 0o100) as u8),
        _ => Instruction::Reserved(word),
    }
}
