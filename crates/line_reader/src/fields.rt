// Registers, numbers and targets, read from the front of a text. Any text gives some value.
ghost use Rattle.std.specs.Prelude.{◌≡◌};
ghost use Rattle.line_reader.specs.Fields.{register_in, with_digit, number_in, size_in, offset_to, count_to};

use crate::characters::look;
use isa::{Register, Size};

pub(crate) fn register_in(text: &[u8]) -> Register
    ensures { result ≡ register_in text.now }
{
    match (look(text, 0), look(text, 1)) {
        ('R', '0') => Register::R0,
        ('R', '1') => Register::R1,
        ('R', '2') => Register::R2,
        ('R', '3') => Register::R3,
        ('R', '4') => Register::R4,
        ('R', _) => Register::R5,
        ('S', _) => Register::Sp,
        _ => Register::Pc,
    }
}

// A number with one more octal digit; what passes 16 bits is lost, and any other character counts as 0.
fn with_digit(number: u16, character: char) -> u16
    ensures { result ≡ with_digit number character }
{
    let digit = character.to_digit(8).unwrap_or(0) as u16;
    number.wrapping_mul(8).wrapping_add(digit)
}

// Six octal digits.
pub(crate) fn number_in(text: &[u8]) -> u16
    ensures { result ≡ number_in text.now }
{
    (0..6).fold(0, |number, place| with_digit(number, look(text, place)))
}

// Whether a B stands behind a name of three letters.
pub(crate) fn size_in(line: &[u8]) -> Size
    ensures { result ≡ size_in line.now }
{
    match look(line, 3) {
        'B' => Size::Byte,
        _ => Size::Word,
    }
}

// The offset of a branch at `address` to `target`, if one reaches it.
pub(crate) fn offset_to(address: u16, target: u16) -> i8
    ensures { result ≡ offset_to address target }
{
    let distance = target.wrapping_sub(address).wrapping_sub(2);
    let words = (distance / 2 % 0o400) as u8;
    words.cast_signed()
}

// The count of a SOB at `address` to `target`, if one reaches it.
pub(crate) fn count_to(address: u16, target: u16) -> u8
    ensures { result ≡ count_to address target }
{
    let distance = address.wrapping_add(2).wrapping_sub(target);
    (distance / 2 % 0o100) as u8
}
