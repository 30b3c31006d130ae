// A line of text as it is written.
ghost use Rattle.std.specs.Prelude.{◌≤◌};

use crate::lister::LONGEST_LINE;

// The longest listing has 28 bytes: four letters, a space, and two operands of eleven characters about a comma.
// A buffer and its length: a library uses no heap, and a line is a plain value that is copied.
#[derive(Clone, Copy)]
pub struct Line {
    pub(crate) bytes: [u8; LONGEST_LINE],
    pub(crate) length: usize,
    ghost fits: { length ≤ 28 },
}
