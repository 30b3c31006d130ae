// A processor at work, with the board and the cabinet side that are lent to it.
use crate::state::Processor;
use bus::{Board, Cabinet};

// A processor, and the board and the cabinet side that it works on, each lent by its owner.
#[derive(Drop)]
pub struct Machine<'a, B: Board, C: Cabinet> {
    pub processor: &'a mut Processor,
    pub board: &'a mut B,
    pub side: &'a mut C,
}
