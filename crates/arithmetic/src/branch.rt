// When each branch is taken.
ghost use Rattle.std.specs.Prelude.{◌≡◌};
ghost use Rattle.arithmetic.specs.Branches.{branches};

use isa::{Condition, Flags};

// Whether a branch with this condition is taken.
pub fn taken(condition: Condition, flags: Flags) -> bool
    ensures { result ≡ branches condition flags }
{
    let less = flags.n != flags.v;
    match condition {
        Condition::Br => true,
        Condition::Bne => !flags.z,
        Condition::Beq => flags.z,
        Condition::Bge => !less,
        Condition::Blt => less,
        Condition::Bgt => !flags.z && !less,
        Condition::Ble => flags.z || less,
        Condition::Bpl => !flags.n,
        Condition::Bmi => flags.n,
        Condition::Bhi => !flags.c && !flags.z,
        Condition::Blos => flags.c || flags.z,
        Condition::Bvc => !flags.v,
        Condition::Bvs => flags.v,
        Condition::Bcc => !flags.c,
        Condition::Bcs => flags.c,
    }
}
