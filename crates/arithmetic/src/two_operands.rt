// The operations of two operands that exist for words and for bytes.
ghost use Rattle.std.specs.Prelude.{◌≡◌};
ghost use Rattle.arithmetic.specs.Doubles.{double_below, double_outcome};
ghost use Rattle.arithmetic.specs.Outcomes.{Holds};

use crate::outcome::Outcome;
use crate::sums::Pair;
use isa::{DoubleOperation, Flags, Size};

// What an operation makes of source and destination and of the old carry.
fn operate(operation: DoubleOperation, operands: Pair, c: bool) -> Outcome
    ensures outcome { result ≡ double_below operation operands.a.size operands.a.value operands.b.value c }
    ensures held { Holds operands.a.size result }
{
    let Pair { a: s, b: d } = operands;
    match operation {
        DoubleOperation::Mov => Outcome::logical(s, c),
        DoubleOperation::Cmp => Outcome {
            value: None,
            ..operands.difference()
        },
        DoubleOperation::Bit => Outcome::flags_only(s.masked(d.value), false, c),
        DoubleOperation::Bic => Outcome::logical(d.masked(s.turned().value), c),
        DoubleOperation::Bis => Outcome::logical(operands.joined_bits(), c),
    }
}

// What an operation makes of source and destination, of which it takes what the size holds, and of the old flags.
// MOV makes nothing of the destination.
#[tactic(auto, unfolding(crate::specs::Doubles::double_outcome))]
pub fn double(
    operation: DoubleOperation,
    size: Size,
    source: u16,
    destination: u16,
    flags: Flags,
) -> Outcome
    ensures outcome { result ≡ double_outcome operation size source destination flags }
    ensures held { Holds size result }
{
    operate(operation, Pair::of(size, source, destination), flags.c)
}
