// The words that a line is taken for. Any line gives some words: whether they list to it is asked afterwards.
ghost use Rattle.std.specs.Prelude.{◌≡◌, ◌≤◌, [], ◌∷◌};
ghost use Rattle.isa.specs.Word.{word};
ghost use Rattle.line_reader.specs.Candidate.{one_instruction, two_instruction, register_instruction, numbered_words, pair_words, two_words, candidate};

use crate::characters::{behind_name, skip};
use crate::fields::{count_to, number_in, offset_to, register_in, size_in};
use crate::mnemonics::mnemonic_in;
use crate::operands::operand_in;
use crate::parsed::{Mnemonic, Numbered, OneOperand, Parsed, RegisterFirst, TwoOperands};
use isa::{Instruction, Operand, Register, Size, encode};

// The size stands beside a name, not in it: names are told by three letters, the size by the fourth.
fn one_instruction(name: OneOperand, size: Size, operand: Operand) -> Instruction
    ensures { result ≡ one_instruction name size operand }
{
    match name {
        OneOperand::Jump => Instruction::Jump(operand),
        OneOperand::SwapBytes => Instruction::SwapBytes(operand),
        OneOperand::SignExtend => Instruction::SignExtend(operand),
        OneOperand::ToStatus => Instruction::ToStatus(operand),
        OneOperand::FromStatus => Instruction::FromStatus(operand),
        OneOperand::Single(operation) => Instruction::Single(size, operation, operand),
    }
}

fn two_instruction(
    name: TwoOperands,
    size: Size,
    source: Operand,
    destination: Operand,
) -> Instruction
    ensures { result ≡ two_instruction name size source destination }
{
    match name {
        TwoOperands::Add => Instruction::Add(source, destination),
        TwoOperands::Subtract => Instruction::Subtract(source, destination),
        TwoOperands::Double(operation) => Instruction::Double(size, operation, source, destination),
    }
}

fn register_instruction(name: RegisterFirst, register: Register, operand: Operand) -> Instruction
    ensures { result ≡ register_instruction name register operand }
{
    match name {
        RegisterFirst::Call => Instruction::Call(register, operand),
        RegisterFirst::ExclusiveOr => Instruction::ExclusiveOr(register, operand),
    }
}

// An instruction with one index word or 0.
fn words_of(instruction: Instruction, number: u16) -> [u16; 3]
    ensures { result ≡ word instruction ∷ number ∷ 0 ∷ [] }
{
    [encode(instruction), number, 0]
}

fn numbered_words(name: Numbered, number: u16) -> [u16; 3]
    ensures { result ≡ numbered_words name number }
{
    match name {
        Numbered::Mark => words_of(Instruction::Mark((number % 0o100) as u8), 0),
        Numbered::Emulate => words_of(Instruction::Emulate((number % 0o400) as u8), 0),
        Numbered::Trap => words_of(Instruction::Trap((number % 0o400) as u8), 0),
        Numbered::Data => [number, 0, 0],
    }
}

// Two operands: the destination's number stands second only if the source takes a word.
fn pair_words(name: TwoOperands, size: Size, source: Parsed, destination: Parsed) -> [u16; 3]
    ensures { result ≡ pair_words name size source destination }
{
    let word = encode(two_instruction(name, size, source.operand, destination.operand));
    if source.operand.takes_word() {
        [word, source.number, destination.number]
    } else {
        [word, destination.number, 0]
    }
}

// The second operand stands behind the first and a comma.
fn two_words(name: TwoOperands, size: Size, text: &[u8]) -> [u16; 3]
    ensures { result ≡ two_words name size text.now }
{
    let source = operand_in(text);
    let destination = operand_in(skip(text, source.length + 1));
    pair_words(name, size, source, destination)
}

pub(crate) fn candidate_in(address: u16, line: &[u8]) -> [u16; 3]
    ensures { result ≡ candidate address line.now }
{
    let size = size_in(line);
    let text = behind_name(line);
    match mnemonic_in(line) {
        Mnemonic::Control(control) => words_of(Instruction::Control(control), 0),
        Mnemonic::Flags(word) => [word, 0, 0],
        Mnemonic::Branch(condition) => {
            let offset = offset_to(address, number_in(text));
            words_of(Instruction::Branch(condition, offset), 0)
        }
        Mnemonic::Return => words_of(Instruction::Return(register_in(text)), 0),
        Mnemonic::Loop => {
            let count = count_to(address, number_in(skip(text, 3)));
            words_of(Instruction::Loop(register_in(text), count), 0)
        }
        Mnemonic::Number(name) => numbered_words(name, number_in(text)),
        Mnemonic::One(name) => {
            let parsed = operand_in(text);
            words_of(one_instruction(name, size, parsed.operand), parsed.number)
        }
        Mnemonic::Two(name) => two_words(name, size, text),
        Mnemonic::Register(name) => {
            let parsed = operand_in(skip(text, 3));
            words_of(
                register_instruction(name, register_in(text), parsed.operand),
                parsed.number,
            )
        }
    }
}
