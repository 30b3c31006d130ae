// The line of an instruction.
ghost use Rattle.std.specs.Prelude.{◌≡◌, if◌then◌else◌};
ghost use Rattle.isa.specs.Further.{takes_word};
ghost use Rattle.listing.specs.Shown.{shown};
ghost use Rattle.listing.specs.Text.{flag_text, unnamed, instruction_text};

use crate::pieces::Pair;
use crate::targets::{branch_target, loop_target};
use crate::text_line::Line;
use isa::{Instruction, Operand};

// A word as a number.
fn unnamed_line(word: u16) -> Line
    ensures { shown result ≡ unnamed word }
{
    Line::named(".WORD").behind(word)
}

// A word that clears or sets flags: eleven of them have names.
fn flag_line(word: u16) -> Line
    ensures { shown result ≡ flag_text word }
{
    let name = match word {
        0o240 => "NOP",
        0o241 => "CLC",
        0o242 => "CLV",
        0o244 => "CLZ",
        0o250 => "CLN",
        0o257 => "CCC",
        0o261 => "SEC",
        0o262 => "SEV",
        0o264 => "SEZ",
        0o270 => "SEN",
        0o277 => "SCC",
        _ => return unnamed_line(word),
    };
    Line::named(name)
}

// The two operands of an instruction: the destination takes the first index word that the source leaves.
fn operands(
    source: Operand,
    destination: Operand,
    first: u16,
    second: u16,
) -> Pair<(Operand, u16), (Operand, u16)>
    ensures { result ≡ record { 0 = (source, first); 1 = (destination, if takes_word source then second else first) } }
{
    let next = if source.takes_word() { second } else { first };
    Pair((source, first), (destination, next))
}

// The line of three words at an address, the first of which says `instruction`.
pub(crate) fn instruction_line(address: u16, words: [u16; 3], instruction: Instruction) -> Line
    ensures { shown result ≡ instruction_text address words instruction }
{
    let [word, first, second] = words;
    match instruction {
        Instruction::Control(control) => Line::empty().with(control),
        Instruction::Jump(d) => Line::named("JMP").behind((d, first)),
        Instruction::Return(register) => Line::named("RTS").behind(register),
        Instruction::Flags(_, _) => flag_line(word),
        Instruction::SwapBytes(d) => Line::named("SWAB").behind((d, first)),
        Instruction::Branch(condition, offset) => {
            Line::empty()
                .with(condition)
                .behind(branch_target(address, offset))
        }
        Instruction::Call(register, d) => Line::named("JSR").behind(Pair(register, (d, first))),
        Instruction::Single(size, operation, d) => Line::empty()
            .with(operation)
            .with(size)
            .behind((d, first)),
        Instruction::Mark(count) => Line::named("MARK").behind(u16::from(count)),
        Instruction::SignExtend(d) => Line::named("SXT").behind((d, first)),
        Instruction::ToStatus(s) => Line::named("MTPS").behind((s, first)),
        Instruction::FromStatus(d) => Line::named("MFPS").behind((d, first)),
        Instruction::Double(size, operation, s, d) => {
            Line::empty()
                .with(operation)
                .with(size)
                .behind(operands(s, d, first, second))
        }
        Instruction::Add(s, d) => Line::named("ADD").behind(operands(s, d, first, second)),
        Instruction::Subtract(s, d) => Line::named("SUB").behind(operands(s, d, first, second)),
        Instruction::ExclusiveOr(register, d) => Line::named("XOR").behind(Pair(
            register,
            (d, first),
        )),
        Instruction::Loop(register, count) => {
            Line::named("SOB").behind(Pair(register, loop_target(address, count)))
        }
        Instruction::Emulate(number) => Line::named("EMT").behind(u16::from(number)),
        Instruction::Trap(number) => Line::named("TRAP").behind(u16::from(number)),
        Instruction::Reserved(_) => unnamed_line(word),
    }
}
