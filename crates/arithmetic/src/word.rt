// The operations that exist for words alone.
ghost use Rattle.std.specs.Prelude.{◌≡◌};
ghost use Rattle.arithmetic.specs.Words.{add_outcome, subtract_outcome, exclusive_or_outcome, swap_outcome, extend_outcome};

use crate::outcome::{Outcome, flags_after};
use crate::sums::Pair;
use crate::width::Number;
use isa::{Flags, Size};

// ADD: source plus destination. ADD and SUB stay two functions: both are public, and each is one line over `Pair`.
#[tactic(auto, unfolding(crate::specs::Words::add_outcome))]
pub fn add(source: u16, destination: u16) -> Outcome
    ensures { result ≡ add_outcome source destination }
{
    Pair::of(Size::Word, source, destination).sum()
}

// SUB: destination minus source.
#[tactic(auto, unfolding(crate::specs::Words::subtract_outcome))]
pub fn subtract(source: u16, destination: u16) -> Outcome
    ensures { result ≡ subtract_outcome source destination }
{
    Pair::of(Size::Word, destination, source).difference()
}

// XOR: the bits in which source and destination differ.
#[tactic(auto, unfolding(crate::specs::Words::exclusive_or_outcome))]
pub fn exclusive_or(source: u16, destination: u16, flags: Flags) -> Outcome
    ensures { result ≡ exclusive_or_outcome source destination flags }
{
    let differing = Number::of(Size::Word, (source ^ destination) as u32);
    Outcome::logical(differing, flags.c)
}

// SWAB: the two bytes exchanged; N and Z by the low byte of the result.
#[tactic(auto, unfolding(crate::specs::Words::swap_outcome))]
pub fn swap_bytes(operand: u16) -> Outcome
    ensures { result ≡ swap_outcome operand }
{
    let swapped = operand.swap_bytes();
    Outcome {
        value: Some(swapped),
        flags: flags_after(Number::of(Size::Byte, swapped as u32), false, false),
    }
}

// SXT: the flag N in every bit.
#[tactic(auto, unfolding(crate::specs::Words::extend_outcome))]
pub fn sign_extend(flags: Flags) -> Outcome
    ensures { result ≡ extend_outcome flags }
{
    let bits = if flags.n { 0o177777 } else { 0 };
    Outcome::logical(Number::of(Size::Word, bits), flags.c)
}
