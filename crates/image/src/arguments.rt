// The arguments that say where to begin in an image and how many instructions to take.
ghost use Rattle.std.specs.Prelude.{◌≡◌, Some};
ghost use Rattle.image.specs.Arguments.{address_in, count_in};
ghost use Rattle.image.specs.Faults.{address_text, count_text};

use crate::numerals::{is_numeral, value};
use std::fmt;

const OCTAL: u32 = 8;

const DECIMAL: u32 = 10;

// The most instructions that are asked for at once: as many as an image has words.
pub const MOST_INSTRUCTIONS: u16 = 32_768;

// Why a text is no address of an instruction; asked in this order.
#[derive(Clone, Copy, Debug)]
pub enum AddressFault {
    // It is empty, or has another character than the digits 0 to 7.
    NotOctal,
    // It is above 177777.
    TooLarge,
    // No instruction begins at an odd address.
    Odd,
}

// Why a text is no count of instructions; asked in this order.
#[derive(Clone, Copy, Debug)]
pub enum CountFault {
    // It is empty, or has another character than the digits 0 to 9.
    NotDecimal,
    // It is 0 or above 32,768.
    OutOfRange,
}

// What is wrong with the text, in words.
impl fmt::Display for AddressFault {
    ghost output = { λ fault. Some (address_text fault) };

    fn fmt<W: fmt::Write>(&self, f: &mut fmt::Formatter<W>) -> fmt::Result {
        f.write_str(match self {
            AddressFault::NotOctal => "the address is not octal",
            AddressFault::TooLarge => "the address is too large",
            AddressFault::Odd => "the address is odd",
        })
    }
}

// What is wrong with the text, in words.
impl fmt::Display for CountFault {
    ghost output = { λ fault. Some (count_text fault) };

    fn fmt<W: fmt::Write>(&self, f: &mut fmt::Formatter<W>) -> fmt::Result {
        f.write_str(match self {
            CountFault::NotDecimal => "the count is not a decimal number",
            CountFault::OutOfRange => "the count is out of range",
        })
    }
}

// The even address that octal digits write.
pub fn parse_address(text: &str) -> Result<u16, AddressFault>
    ensures { result ≡ address_in text.now }
{
    if !is_numeral(OCTAL, text) {
        return Err(AddressFault::NotOctal);
    }
    let address = value(OCTAL, text).ok_or(AddressFault::TooLarge)?;
    if address.is_multiple_of(2) {
        Ok(address)
    } else {
        Err(AddressFault::Odd)
    }
}

// The count, 1 to 32,768, that decimal digits write.
pub fn parse_count(text: &str) -> Result<u16, CountFault>
    ensures { result ≡ count_in text.now }
{
    if !is_numeral(DECIMAL, text) {
        return Err(CountFault::NotDecimal);
    }
    value(DECIMAL, text)
        .filter(|count| (1..=MOST_INSTRUCTIONS).contains(count))
        .ok_or(CountFault::OutOfRange)
}
