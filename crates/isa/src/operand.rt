// Registers, and operands by their addressing mode.

// The eight registers, in the order of the register digit from 0 to 7; R6 is the stack pointer SP, R7 the program counter PC.
#[derive(Clone, Copy, PartialEq, Eq, Debug)]
pub enum Register {
    R0,
    R1,
    R2,
    R3,
    R4,
    R5,
    Sp,
    Pc,
}

// An operand by its addressing mode, in the order of the mode digit from 0 to 7.
#[derive(Clone, Copy, PartialEq, Eq, Debug)]
pub enum Operand {
    Direct(Register),
    Deferred(Register),
    Increment(Register),
    IncrementDeferred(Register),
    Decrement(Register),
    DecrementDeferred(Register),
    Index(Register),
    IndexDeferred(Register),
}
