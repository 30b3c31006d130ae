// What a step answers.

#[derive(Clone, Copy)]
pub enum Answer {
    // An instruction was executed.
    WentOn,
    // A vector was entered.
    Entered,
    // A waiting processor waits on.
    Waiting,
    // HALT was executed.
    Halted,
    // An access timed out while a vector was entered, or the vector request did.
    Dead,
    // The processor was not running, and did nothing but sample its lines.
    Idle,
}
