// The operations of one operand that exist for words and for bytes.
ghost use Rattle.std.specs.Prelude.{◌≡◌};
ghost use Rattle.arithmetic.specs.Outcomes.{Holds};
ghost use Rattle.arithmetic.specs.Singles.{complemented, incremented, decremented, negated, carry_added, carry_taken, moved, rotated_right, rotated_left, single_below, single_outcome};

use crate::outcome::Outcome;
use crate::width::Number;
use isa::{Flags, SingleOperation, Size};

// COM: every bit turned.
fn complement(x: Number) -> Outcome
    ensures { result ≡ complemented x.size x.value }
{
    Outcome::with_result(x.turned(), false, true)
}

// INC: one more; overflow where that turns a positive number negative. The old carry stands beside the number, here and below:
// it is the status word's, and no part of the number.
fn increment(x: Number, c: bool) -> Outcome
    ensures { result ≡ incremented x.size x.value c }
{
    let value = x.plus(1);
    Outcome::with_result(value, !x.is_negative() && value.is_negative(), c)
}

// DEC: one less; overflow where that turns a negative number positive.
fn decrement(x: Number, c: bool) -> Outcome
    ensures { result ≡ decremented x.size x.value c }
{
    let value = x.minus(1);
    Outcome::with_result(value, x.is_negative() && !value.is_negative(), c)
}

// NEG: the negative; the smallest number is its own, and that is overflow.
fn negate(x: Number) -> Outcome
    ensures { result ≡ negated x.size x.value }
{
    let value = x.with(0).minus(x.value);
    let overflow = x.is_negative() && value.is_negative();
    Outcome::with_result(value, overflow, value.value != 0)
}

// ADC: the carry added. Beside INC, which keeps the carry.
fn add_carry(x: Number, c: bool) -> Outcome
    ensures { result ≡ carry_added x.size x.value c }
{
    let value = x.plus(u16::from(c));
    let overflow = !x.is_negative() && value.is_negative();
    Outcome::with_result(value, overflow, c && value.value == 0)
}

// SBC: the carry taken away. Beside DEC, which keeps the carry.
fn subtract_carry(x: Number, c: bool) -> Outcome
    ensures { result ≡ carry_taken x.size x.value c }
{
    let value = x.minus(u16::from(c));
    let overflow = x.is_negative() && !value.is_negative();
    Outcome::with_result(value, overflow, c && x.value == 0)
}

// The result of a shift or a rotation, and the bit that it moved out.
fn move_bits(value: Number, out: bool) -> Outcome
    ensures { result ≡ moved value.size value.value out }
{
    Outcome::with_result(value, value.is_negative() != out, out)
}

// ROR: carry and operand, as one number, moved right; the carry comes in on the left.
fn rotate_right(x: Number, c: bool) -> Outcome
    ensures { result ≡ rotated_right x.size x.value c }
{
    let joined = u32::from(c) * x.span() + x.value as u32;
    move_bits(x.with(joined / 2), x.value % 2 == 1)
}

// ROL: operand and carry, as one number, moved left; the carry comes in on the right.
fn rotate_left(x: Number, c: bool) -> Outcome
    ensures { result ≡ rotated_left x.size x.value c }
{
    move_bits(x.with(2 * x.value as u32 + u32::from(c)), x.is_negative())
}

// What an operation makes of an operand and of the old carry. A match and no table of functions: its cases are what an
// operation is.
fn operate(operation: SingleOperation, x: Number, c: bool) -> Outcome
    ensures outcome { result ≡ single_below operation x.size x.value c }
    ensures held { Holds x.size result }
{
    match operation {
        SingleOperation::Clr => Outcome::with_result(x.with(0), false, false),
        SingleOperation::Com => complement(x),
        SingleOperation::Inc => increment(x, c),
        SingleOperation::Dec => decrement(x, c),
        SingleOperation::Neg => negate(x),
        SingleOperation::Adc => add_carry(x, c),
        SingleOperation::Sbc => subtract_carry(x, c),
        SingleOperation::Tst => Outcome::flags_only(x, false, false),
        SingleOperation::Ror => rotate_right(x, c),
        SingleOperation::Rol => rotate_left(x, c),
        SingleOperation::Asr => rotate_right(x, x.is_negative()),
        SingleOperation::Asl => rotate_left(x, false),
    }
}

// What an operation makes of its operand, of which it takes what the size holds, and of the old flags.
#[tactic(auto, unfolding(crate::specs::Singles::single_outcome))]
pub fn single(operation: SingleOperation, size: Size, operand: u16, flags: Flags) -> Outcome
    ensures outcome { result ≡ single_outcome operation size operand flags }
    ensures held { Holds size result }
{
    operate(operation, Number::of(size, operand as u32), flags.c)
}
