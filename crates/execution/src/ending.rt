// How an executed word ends.

// Why an instruction goes to a vector of its own accord, and which vector that is.
#[derive(Clone, Copy)]
pub enum Trap {
    // A word that is no instruction.
    Reserved = 0o10,
    // A jump or a call to a register.
    JumpToRegister = 0o4,
    Bpt = 0o14,
    Iot = 0o20,
    Emt = 0o30,
    Trap = 0o34,
}

// How an executed word ends.
#[derive(Clone, Copy)]
pub enum Ending {
    Completed,
    // Completed by RTT, which leaves the trace mark alone.
    ReturnedFromTrace,
    // HALT, which has stopped the processor.
    Halted,
    // An access timed out, and the instruction ended there.
    TimedOut,
    Trapped(Trap),
}
