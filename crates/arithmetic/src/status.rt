// The operations on the status word: MTPS, MFPS and the flag words.
ghost use Rattle.std.specs.Prelude.{◌≡◌};
ghost use Rattle.arithmetic.specs.Outcomes.{Holds};
ghost use Rattle.arithmetic.specs.Status.{with_low_byte, from_status_outcome, changed_flags};
ghost use Rattle.isa.specs.declared.instruction.Size.TheVariants.{Byte};

use crate::outcome::Outcome;
use crate::width::Number;
use isa::{FlagChange, FlagMask, Flags, Size};

// MTPS: the status word with its low byte replaced by that of the operand.
#[tactic(auto, unfolding(crate::specs::Status::with_low_byte))]
pub fn to_status(status: u16, operand: u16) -> u16
    ensures { result ≡ with_low_byte status operand }
{
    let [_, high] = status.to_le_bytes();
    let [low, _] = operand.to_le_bytes();
    u16::from_le_bytes([low, high])
}

// MFPS: the low byte of the status word, as it was before these flags.
#[tactic(auto, unfolding(crate::specs::Status::from_status_outcome))]
pub fn from_status(status: u16) -> Outcome
    ensures outcome { result ≡ from_status_outcome status }
    ensures held { Holds Byte result }
{
    let low = Number::of(Size::Byte, status as u32);
    Outcome::logical(low, Flags::of_status(status).c)
}

// The flag words: the flags of the mask cleared or set, the others kept.
pub fn change_flags(change: FlagChange, mask: FlagMask, flags: Flags) -> Flags
    ensures { result ≡ changed_flags change mask flags }
{
    match change {
        FlagChange::Clear => Flags {
            n: !mask.n && flags.n,
            z: !mask.z && flags.z,
            v: !mask.v && flags.v,
            c: !mask.c && flags.c,
        },
        FlagChange::Set => Flags {
            n: mask.n || flags.n,
            z: mask.z || flags.z,
            v: mask.v || flags.v,
            c: mask.c || flags.c,
        },
    }
}
