// Numbers as text.
ghost use Rattle.std.specs.Prelude.{◌≡◌};
ghost use Rattle.listing.specs.Text.{octal};

// A number in six octal digits, in an array: a library has no heap to print into.
pub fn octal(number: u16) -> [u8; 6]
    ensures { result ≡ octal number }
{
    [15, 12, 9, 6, 3, 0].map(|shift| b'0' + (number.wrapping_shr(shift) % 8) as u8)
}
