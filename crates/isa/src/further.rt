// The words that an instruction takes beyond its first.
ghost use Rattle.std.specs.Prelude.{◌≡◌, ◌≤◌, ◌+◌};
ghost use Rattle.isa.specs.Further.{takes_word, further_words};
ghost use Rattle.isa.specs.Word.{bit};

use crate::instruction::Instruction;
use crate::operand::{Operand, Register};

impl Operand {
    // Whether the operand takes the next word of its instruction: as an index, or as what PC points to.
    pub fn takes_word(self) -> bool
        ensures { result ≡ takes_word self }
    {
        matches!(
            self,
            Operand::Index(_)
                | Operand::IndexDeferred(_)
                | Operand::Increment(Register::Pc)
                | Operand::IncrementDeferred(Register::Pc)
        )
    }

    fn words(self) -> u8
        ensures value { result ≡ bit (takes_word self) }
        ensures bound { result ≤ 1 }
    {
        u8::from(self.takes_word())
    }
}

impl Instruction {
    // How many words the instruction takes beyond its first: 0, 1 or 2.
    pub fn further_words(self) -> u8
        ensures value { result ≡ further_words self }
        ensures bound { result ≤ 2 }
    {
        match self {
            Instruction::Double(_, _, source, destination)
            | Instruction::Add(source, destination)
            | Instruction::Subtract(source, destination) => source.words() + destination.words(),
            Instruction::Jump(operand)
            | Instruction::SwapBytes(operand)
            | Instruction::Call(_, operand)
            | Instruction::Single(_, _, operand)
            | Instruction::SignExtend(operand)
            | Instruction::ToStatus(operand)
            | Instruction::FromStatus(operand)
            | Instruction::ExclusiveOr(_, operand) => operand.words(),
            _ => 0,
        }
    }
}
