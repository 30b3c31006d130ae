// Notes of exchanges: a table of eleven, as many as a restart or a step makes at most. A table and a count, since notes are
// taken in fixed memory.
ghost use Rattle.std.specs.Prelude.{◌≤◌};

use crate::exchange::Exchange;

// How many exchanges there is place for.
pub(crate) const PLACES: usize = 11;

#[derive(Clone, Copy)]
pub struct Notes {
    pub(crate) table: [Exchange; PLACES],
    pub(crate) count: usize,
    ghost fits: { count ≤ 11 },
}
