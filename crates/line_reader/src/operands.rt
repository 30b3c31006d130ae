// Reading operands from the front of a text. Any text gives some operand.
ghost use Rattle.std.specs.Prelude.{◌≡◌, ◌≤◌};
ghost use Rattle.line_reader.specs.Operands.{plain, numbered, behind_at, operand_in};

use crate::characters::{look, skip};
use crate::fields::{number_in, register_in};
use crate::parsed::Parsed;
use isa::{Operand, Register};

fn unnumbered(operand: Operand, length: usize) -> Parsed
    ensures { result ≡ plain operand length }
{
    Parsed {
        operand,
        number: 0,
        length,
    }
}

// An operand that begins with @.
fn behind_at(text: &[u8]) -> Parsed
    ensures value { result ≡ behind_at text.now }
    ensures short { result.length ≤ 11 }
{
    match look(text, 1) {
        '#' => Parsed {
            operand: Operand::IncrementDeferred(Register::Pc),
            number: number_in(skip(text, 2)),
            length: 8,
        },
        '(' => unnumbered(Operand::IncrementDeferred(register_in(skip(text, 2))), 6),
        '-' => unnumbered(Operand::DecrementDeferred(register_in(skip(text, 3))), 6),
        _ => Parsed {
            operand: Operand::IndexDeferred(register_in(skip(text, 8))),
            number: number_in(skip(text, 1)),
            length: 11,
        },
    }
}

#[tactic(auto, unfolding(crate::specs::Operands::operand_in))]
pub(crate) fn operand_in(text: &[u8]) -> Parsed
    ensures value { result ≡ operand_in text.now }
    ensures short { result.length ≤ 11 }
{
    match look(text, 0) {
        '(' => match look(text, 4) {
            '+' => unnumbered(Operand::Increment(register_in(skip(text, 1))), 5),
            _ => unnumbered(Operand::Deferred(register_in(skip(text, 1))), 4),
        },
        '#' => Parsed {
            operand: Operand::Increment(Register::Pc),
            number: number_in(skip(text, 1)),
            length: 7,
        },
        '-' => unnumbered(Operand::Decrement(register_in(skip(text, 2))), 5),
        '@' => behind_at(text),
        '0'..='7' => Parsed {
            operand: Operand::Index(register_in(skip(text, 7))),
            number: number_in(text),
            length: 10,
        },
        _ => unnumbered(Operand::Direct(register_in(text)), 2),
    }
}
