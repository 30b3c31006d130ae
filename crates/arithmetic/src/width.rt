// Numbers of the two sizes: how many there are, and which have the sign.
ghost use Rattle.std.specs.Prelude.{◌≡◌, ◌+◌, ◌-◌, ◌%◌, ◌<◌, ◌≤◌, bit_and};
ghost use Rattle.arithmetic.specs.Widths.{span, negative};

use isa::Size;

// How many numbers there are of a size.
fn span_of(size: Size) -> u32
    ensures value { result ≡ span size }
    ensures bound { result ≤ 65536 }
{
    match size {
        Size::Word => 65536,
        Size::Byte => 256,
    }
}

// A number that a place of a size holds.
#[derive(Clone, Copy)]
pub(crate) struct Number {
    pub(crate) size: Size,
    pub(crate) value: u16,
    ghost below: { value < span size },
}

impl Number {
    // What a place of this size holds of a number: its low bits.
    pub(crate) fn of(size: Size, number: u32) -> Number
        ensures size { result.size ≡ size }
        ensures value { result.value ≡ number % span size }
    {
        Number {
            size,
            value: (number % span_of(size)) as u16,
        }
    }

    // What a place of its size holds of another number.
    pub(crate) fn with(self, number: u32) -> Number
        ensures size { result.size ≡ self.size }
        ensures value { result.value ≡ number % span self.size }
    {
        Number::of(self.size, number)
    }

    // How many numbers there are of its size.
    pub(crate) fn span(self) -> u32
        ensures value { result ≡ span self.size }
        ensures bound { result ≤ 65536 }
    {
        span_of(self.size)
    }

    // Whether the sign bit is set.
    pub(crate) fn is_negative(self) -> bool
        ensures { result ≡ negative self.size self.value }
    {
        self.value as u32 >= self.span() / 2
    }

    // So much more, around the end of the numbers of its size.
    pub(crate) fn plus(self, more: u16) -> Number
        ensures size { result.size ≡ self.size }
        ensures value { result.value ≡ (self.value + more) % span self.size }
    {
        self.with(self.value as u32 + more as u32)
    }

    // So much less, around the end of the numbers of its size.
    pub(crate) fn minus(self, less: u16) -> Number
        requires { less ≤ span self.size }
        ensures size { result.size ≡ self.size }
        ensures value { result.value ≡ (self.value + (span self.size - less)) % span self.size }
    {
        self.with(self.value as u32 + (self.span() - less as u32))
    }

    // Every bit turned.
    pub(crate) fn turned(self) -> Number
        ensures size { result.size ≡ self.size }
        ensures value { result.value ≡ span self.size - 1 - self.value }
    {
        self.with(!self.value as u32)
    }

    // The bits that a mask has too.
    pub(crate) fn masked(self, mask: u16) -> Number
        ensures size { result.size ≡ self.size }
        ensures value { result.value ≡ bit_and self.value mask }
    {
        Number {
            size: self.size,
            value: self.value & mask,
        }
    }
}
