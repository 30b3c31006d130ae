// The word of an instruction.
ghost use Rattle.std.specs.Prelude.{◌≡◌, ◌+◌, ◌*◌, ◌<◌, ◌≤◌, ◌%◌};
ghost use Rattle.isa.specs.Word.{number, bits, byte, word};

use crate::instruction::Instruction;
use crate::operand::{Operand, Register};

// The word that an instruction is written as. Of a count of `Mark` or `Loop` it has the six low bits.
pub fn encode(instruction: Instruction) -> u16
    ensures { result ≡ word instruction }
{
    match instruction {
        Instruction::Control(control) => control as u16,
        Instruction::Jump(target) => 0o000100 + operand_digits(target),
        Instruction::Return(link) => 0o000200 + link as u16,
        Instruction::Flags(change, mask) => change as u16 + mask.bits(),
        Instruction::SwapBytes(destination) => 0o000300 + operand_digits(destination),
        Instruction::Branch(condition, offset) => condition as u16 + low_byte(offset),
        Instruction::Call(link, target) => with_operand(0o004000, link as u16, target),
        Instruction::Single(size, operation, destination) => {
            size as u16 + operation as u16 + operand_digits(destination)
        }
        Instruction::Mark(count) => 0o006400 + six_bits(count),
        Instruction::SignExtend(destination) => 0o006700 + operand_digits(destination),
        Instruction::ToStatus(source) => 0o106400 + operand_digits(source),
        Instruction::FromStatus(destination) => 0o106700 + operand_digits(destination),
        Instruction::Double(size, operation, source, destination) => {
            size as u16 + with_operands(operation as u16, source, destination)
        }
        Instruction::Add(source, destination) => with_operands(0o060000, source, destination),
        Instruction::Subtract(source, destination) => with_operands(0o160000, source, destination),
        Instruction::ExclusiveOr(source, destination) => with_operand(
            0o074000,
            source as u16,
            destination,
        ),
        Instruction::Loop(counter, count) => 0o077000 + 0o100 * counter as u16 + six_bits(count),
        Instruction::Emulate(byte) => 0o104000 + byte as u16,
        Instruction::Trap(byte) => 0o104400 + byte as u16,
        Instruction::Reserved(number) => number,
    }
}

// The two digits of an operand. Its variants carry a register, so the mode digit cannot be their own number.
fn operand_digits(operand: Operand) -> u16
    ensures value { result ≡ bits operand }
    ensures digits { result < 0o100 }
{
    let (mode, register) = match operand {
        Operand::Direct(register) => (0, register),
        Operand::Deferred(register) => (1, register),
        Operand::Increment(register) => (2, register),
        Operand::IncrementDeferred(register) => (3, register),
        Operand::Decrement(register) => (4, register),
        Operand::DecrementDeferred(register) => (5, register),
        Operand::Index(register) => (6, register),
        Operand::IndexDeferred(register) => (7, register),
    };
    0o10 * mode + register as u16
}

// A count as far as six bits hold it.
fn six_bits(count: u8) -> u16
    ensures value { result ≡ count % 0o100 }
    ensures bound { result < 0o100 }
{
    (count % 0o100) as u16
}

// Two digits and an operand after a base.
fn with_operand(base: u16, digits: u16, operand: Operand) -> u16
    requires base { base ≤ 0o160000 }
    requires digits { digits < 0o100 }
    ensures value { result ≡ base + 0o100 * digits + bits operand }
    ensures bound { result < base + 0o10000 }
{
    base + 0o100 * digits + operand_digits(operand)
}

// Source and destination after a base.
fn with_operands(base: u16, source: Operand, destination: Operand) -> u16
    requires { base ≤ 0o160000 }
    ensures value { result ≡ base + 0o100 * bits source + bits destination }
    ensures bound { result < base + 0o10000 }
{
    with_operand(base, operand_digits(source), destination)
}

// The low byte that stands for an offset.
fn low_byte(offset: i8) -> u16
    ensures value { result ≡ byte offset }
    ensures bound { result < 0o400 }
{
    offset.cast_unsigned() as u16
}
