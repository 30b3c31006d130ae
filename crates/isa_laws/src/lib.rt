// Laws of the instruction set: each word has one reading, and 8,529 words are reserved.
#![tactic(auto)]

ghost use Rattle.std.specs.Prelude.{◌≡◌};
ghost use Rattle.isa_laws.specs.OneReading.{WordsHaveOneReading, reserved_word, how_many};

use isa::{Instruction, decode};

// How many of the 65,536 words are reserved. Each of the others has one instruction of the table, which is its reading.
pub fn reserved_words() -> u32
    ensures counted { result ≡ how_many reserved_word 0o200000 }
    ensures number { result ≡ 8529 }
    ensures words_have_one_reading { WordsHaveOneReading }
{
    (0..=u16::MAX).filter(|word| is_reserved(*word)).count() as u32
}

fn is_reserved(word: u16) -> bool
    ensures { result ≡ reserved_word word }
{
    matches!(decode(word), Instruction::Reserved(_))
}
