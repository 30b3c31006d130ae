// What an operation leaves.
ghost use Rattle.std.specs.Prelude.{◌≡◌};
ghost use Rattle.arithmetic.specs.Outcomes.{flagged, result as resulting, logical, flags_only};

use crate::width::Number;
use isa::Flags;

// The result, `None` for an operation that only sets flags, and the flags afterwards.
#[derive(Clone, Copy, PartialEq, Eq, Debug)]
pub struct Outcome {
    pub value: Option<u16>,
    pub flags: Flags,
}

// N and Z as they follow from a result, with these V and C.
pub(crate) fn flags_after(number: Number, v: bool, c: bool) -> Flags
    ensures { result ≡ flagged number.size number.value v c }
{
    Flags {
        n: number.is_negative(),
        z: number.value == 0,
        v,
        c,
    }
}

impl Outcome {
    // A result with its flags.
    pub(crate) fn with_result(number: Number, v: bool, c: bool) -> Outcome
        ensures { result ≡ resulting number.size number.value v c }
    {
        Outcome {
            value: Some(number.value),
            flags: flags_after(number, v, c),
        }
    }

    // A result of an operation on single bits: no overflow, the carry kept.
    pub(crate) fn logical(number: Number, c: bool) -> Outcome
        ensures { result ≡ logical number.size number.value c }
    {
        Outcome::with_result(number, false, c)
    }

    // The flags of a result that is not kept.
    pub(crate) fn flags_only(number: Number, v: bool, c: bool) -> Outcome
        ensures { result ≡ flags_only number.size number.value v c }
    {
        Outcome {
            value: None,
            flags: flags_after(number, v, c),
        }
    }
}
