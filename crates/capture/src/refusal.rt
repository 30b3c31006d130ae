// Why bytes are no capture.
ghost use Rattle.std.specs.Prelude.{◌≡◌, Some};
ghost use Rattle.capture.specs.Checking.{refusal_number};
ghost use Rattle.capture.specs.Refusals.{refusal_text};

use std::fmt;

// In the order in which they are asked, each with the number by which operators know it.
#[derive(Clone, Copy, PartialEq, Eq, Debug)]
pub enum Refusal {
    // Not 1 to 4,096 whole blocks.
    Blocks = 3,
    // A block with another number than its place.
    Number = 5,
    // More than 506 used bytes.
    Used = 6,
    // A block whose words do not add up to 0.
    Checksum = 7,
    // A header length outside 4 to 32, or a record that ends past the used bytes.
    Length = 8,
    // Fields that the record's kind does not allow.
    Fields = 9,
}

impl Refusal {
    // The number by which operators know it.
    pub fn number(self) -> u8
        ensures { result ≡ refusal_number self }
    {
        self as u8
    }
}

// What was found, in words.
impl fmt::Display for Refusal {
    ghost output = { λ refusal. Some (refusal_text refusal) };

    fn fmt<W: fmt::Write>(&self, f: &mut fmt::Formatter<W>) -> fmt::Result {
        f.write_str(match self {
            Refusal::Blocks => "not 1 to 4096 whole blocks",
            Refusal::Number => "another block number than its place",
            Refusal::Used => "more than 506 used bytes",
            Refusal::Checksum => "the words do not add up to 0",
            Refusal::Length => {
                "no header length from 4 to 32, or the record ends past the used bytes"
            }
            Refusal::Fields => "fields that the record's kind does not allow",
        })
    }
}
