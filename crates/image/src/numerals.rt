// Numbers that are written in digits of a base.
ghost use Rattle.std.specs.Prelude.{◌≡◌, ◌≤◌, IsTrue};
ghost use Rattle.image.specs.Numerals.{digit, digits, numeral, number_of, up_to};

const ZERO: u8 = b'0';

// By hand, since the library's `char::is_digit` takes the letters of larger bases too.
fn is_digit(base: u32, byte: u8) -> bool
    ensures { result ≡ digit base byte }
{
    byte >= ZERO && u32::from(byte - ZERO) < base
}

// Whether each byte is a digit of the base.
fn all_digits(base: u32, text: &[u8]) -> bool
    ensures { result ≡ digits base text.now }
{
    text.iter().all(|byte| is_digit(base, *byte))
}

// Whether the text is one digit or more, and nothing else.
pub(crate) fn is_numeral(base: u32, text: &str) -> bool
    ensures { result ≡ numeral base text.now }
{
    !text.is_empty() && all_digits(base, text.as_bytes())
}

// The number that a numeral writes, unless it takes more than 16 bits.
pub(crate) fn value(base: u32, text: &str) -> Option<u16>
    requires least { 2 ≤ base }
    requires most { base ≤ 10 }
    ensures { IsTrue (numeral base text.now) → result ≡ up_to 65535 (number_of base text.now) }
{
    u16::from_str_radix(text, base).ok()
}
