// Sums and differences of two numbers of a size, with their flags, and their bits together.
ghost use Rattle.std.specs.Prelude.{◌≡◌, ◌%◌, bit_or};
ghost use Rattle.arithmetic.specs.Sums.{sum_of, difference_of};
ghost use Rattle.arithmetic.specs.Widths.{span};

use crate::outcome::Outcome;
use crate::width::Number;
use isa::Size;

// Two numbers of one size.
#[derive(Clone, Copy)]
pub(crate) struct Pair {
    pub(crate) a: Number,
    pub(crate) b: Number,
    ghost alike: { a.size ≡ b.size },
}

impl Pair {
    // What places of this size hold of two numbers.
    pub(crate) fn of(size: Size, a: u16, b: u16) -> Pair
        ensures size { result.a.size ≡ size }
        ensures first { result.a.value ≡ a % span size }
        ensures second { result.b.value ≡ b % span size }
    {
        Pair {
            a: Number::of(size, a as u32),
            b: Number::of(size, b as u32),
        }
    }

    // a + b; overflow where both have one sign and the sum the other.
    pub(crate) fn sum(self) -> Outcome
        ensures { result ≡ sum_of self.a.size self.a.value self.b.value }
    {
        let Pair { a, b } = self;
        let value = a.plus(b.value);
        let sign = a.is_negative();
        let overflow = b.is_negative() == sign && value.is_negative() != sign;
        Outcome::with_result(value, overflow, a.value as u32 + b.value as u32 >= a.span())
    }

    // a - b; overflow where they differ in sign and the difference has the sign of b.
    pub(crate) fn difference(self) -> Outcome
        ensures { result ≡ difference_of self.a.size self.a.value self.b.value }
    {
        let Pair { a, b } = self;
        let value = a.minus(b.value);
        let sign = b.is_negative();
        let overflow = a.is_negative() != sign && value.is_negative() == sign;
        Outcome::with_result(value, overflow, a.value < b.value)
    }

    // The bits of both.
    pub(crate) fn joined_bits(self) -> Number
        ensures size { result.size ≡ self.a.size }
        ensures value { result.value ≡ bit_or self.b.value self.a.value }
    {
        Number {
            size: self.a.size,
            value: self.b.value | self.a.value,
        }
    }
}
