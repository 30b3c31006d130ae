// Operands by the eight modes: where one lies, what it holds, and writing it. `None` is a time-out throughout.
ghost use Rattle.std.specs.Prelude.{◌≡◌};
ghost use Rattle.bus.specs.Courses.{Played};
ghost use Rattle.operands.specs.State.{beside};
ghost use Rattle.operands.specs.Machines.{Ran};
ghost use Rattle.operands.specs.Operands.{reads_past, fetches, stride, points, indexes, locates, half, loads_byte, takes, gives};

use crate::machine::Machine;
use crate::state::Processor;
use bus::{Board, Cabinet, Gone, load, store, store_byte};
use isa::{Operand, Register, Size};

// Where an operand lies. The size of an access stands beside it, since that is the instruction's.
#[derive(Clone, Copy)]
pub enum Location {
    InRegister(Register),
    InMemory(u16),
}

// How far modes 2 and 4 move a register.
fn stride_of(size: Size, r: Register) -> u16
    ensures { result ≡ stride size r }
{
    match (size, r) {
        (Size::Word, _) => 2,
        (Size::Byte, Register::Sp | Register::Pc) => 2,
        (Size::Byte, _) => 1,
    }
}

// The half of a word that an address names.
fn half_of(at: u16, word: u16) -> u16
    ensures { result ≡ half at word }
{
    u16::from(word.to_le_bytes()[usize::from(at % 2)])
}

// No machine, here and in `load_byte`: the processor has no part in them.
#[tactic(auto, unfolding(crate::specs::Operands::points))]
fn point<B: Board, C: Cabinet>(
    board: &mut B,
    side: &mut C,
    at: u16,
) -> Result<Option<Location>, Gone>
    ensures { Played C.meaning C.becomes (points at) (B.meaning board.old) side.old result (B.meaning board.new) side.new }
{
    let Some(pointer) = load(board, side, at)? else {
        return Ok(None);
    };
    Ok(Some(Location::InMemory(pointer)))
}

#[tactic(auto, unfolding(crate::specs::Operands::loads_byte))]
fn load_byte<B: Board, C: Cabinet>(
    board: &mut B,
    side: &mut C,
    at: u16,
) -> Result<Option<u16>, Gone>
    ensures { Played C.meaning C.becomes (loads_byte at) (B.meaning board.old) side.old result (B.meaning board.new) side.new }
{
    let Some(word) = load(board, side, at)? else {
        return Ok(None);
    };
    Ok(Some(half_of(at, word)))
}

// What an operand holds. The processor is only looked at, so that it need not be a machine's.
#[tactic(auto, unfolding(crate::specs::Operands::takes))]
pub fn take<B: Board, C: Cabinet>(
    p: &Processor,
    board: &mut B,
    side: &mut C,
    size: Size,
    location: Location,
) -> Result<Option<u16>, Gone>
    ensures { Played C.meaning C.becomes (takes size location p.now) (B.meaning board.old) side.old result (B.meaning board.new) side.new }
{
    match (size, location) {
        (Size::Word, Location::InRegister(r)) => Ok(Some(p.register(r))),
        (Size::Byte, Location::InRegister(r)) => Ok(Some(half_of(0, p.register(r)))),
        (Size::Word, Location::InMemory(at)) => load(board, side, at),
        (Size::Byte, Location::InMemory(at)) => load_byte(board, side, at),
    }
}

impl<B: Board, C: Cabinet> Machine<'_, B, C> {
    // The word that a register points to, which rises past it.
    pub fn read_past(&mut self, r: Register) -> Result<Option<u16>, Gone>
        ensures { Ran B.Board C.Cabinet (reads_past r) self.old (beside result self.new.processor.now) self.new }
    {
        let at = self.processor.register(r);
        self.processor.set_register(r, at.wrapping_add(2));
        load(self.board, self.side, at)
    }

    // The word at PC, which rises past it.
    #[tactic(auto, unfolding(crate::specs::Operands::fetches))]
    pub fn fetch(&mut self) -> Result<Option<u16>, Gone>
        ensures { Ran B.Board C.Cabinet fetches self.old (beside result self.new.processor.now) self.new }
    {
        self.read_past(Register::Pc)
    }

    // The next word added to a register. Each access is taken apart by `let .. else`, the one form of a time-out here and above.
    #[tactic(auto, unfolding(crate::specs::Operands::indexes))]
    fn index(&mut self, r: Register) -> Result<Option<u16>, Gone>
        ensures { Ran B.Board C.Cabinet (indexes r) self.old (beside result self.new.processor.now) self.new }
    {
        let Some(word) = self.fetch()? else {
            return Ok(None);
        };
        Ok(Some(word.wrapping_add(self.processor.register(r))))
    }

    // Where an operand lies.
    #[tactic(auto, unfolding(crate::specs::Operands::locates, crate::specs::Operands::index_points))]
    pub fn locate(&mut self, size: Size, operand: Operand) -> Result<Option<Location>, Gone>
        ensures { Ran B.Board C.Cabinet (locates size operand) self.old (beside result self.new.processor.now) self.new }
    {
        match operand {
            Operand::Direct(r) => Ok(Some(Location::InRegister(r))),
            Operand::Deferred(r) => Ok(Some(Location::InMemory(self.processor.register(r)))),
            Operand::Increment(r) => {
                let at = self.processor.register(r);
                self.processor
                    .set_register(r, at.wrapping_add(stride_of(size, r)));
                Ok(Some(Location::InMemory(at)))
            }
            Operand::IncrementDeferred(r) => {
                let at = self.processor.register(r);
                self.processor.set_register(r, at.wrapping_add(2));
                point(self.board, self.side, at)
            }
            Operand::Decrement(r) => {
                let at = self.processor.register(r).wrapping_sub(stride_of(size, r));
                self.processor.set_register(r, at);
                Ok(Some(Location::InMemory(at)))
            }
            Operand::DecrementDeferred(r) => {
                let at = self.processor.register(r).wrapping_sub(2);
                self.processor.set_register(r, at);
                point(self.board, self.side, at)
            }
            Operand::Index(r) => {
                let Some(at) = self.index(r)? else {
                    return Ok(None);
                };
                Ok(Some(Location::InMemory(at)))
            }
            Operand::IndexDeferred(r) => {
                let Some(at) = self.index(r)? else {
                    return Ok(None);
                };
                point(self.board, self.side, at)
            }
        }
    }

    // What an operand holds.
    pub fn take(&mut self, size: Size, location: Location) -> Result<Option<u16>, Gone>
        ensures ran { Ran B.Board C.Cabinet (takes size location) self.old result self.new }
        ensures left { self.new.processor.now ≡ self.old.processor.now }
    {
        take(self.processor, self.board, self.side, size, location)
    }

    // Writes an operand.
    #[tactic(auto, unfolding(crate::specs::Operands::gives))]
    pub fn give(&mut self, size: Size, location: Location, value: u16) -> Result<Option<()>, Gone>
        ensures { Ran B.Board C.Cabinet (gives size location value) self.old (beside result self.new.processor.now) self.new }
    {
        let [low, _] = value.to_le_bytes();
        match (size, location) {
            (Size::Word, Location::InRegister(r)) => {
                self.processor.set_register(r, value);
                Ok(Some(()))
            }
            (Size::Byte, Location::InRegister(r)) => {
                let [_, high] = self.processor.register(r).to_le_bytes();
                self.processor
                    .set_register(r, u16::from_le_bytes([low, high]));
                Ok(Some(()))
            }
            (Size::Word, Location::InMemory(at)) => store(self.board, self.side, at, value),
            (Size::Byte, Location::InMemory(at)) => store_byte(self.board, self.side, at, low),
        }
    }
}

// The word at PC, which rises past it. This and what follows are for callers that lend board and side to each call.
pub fn fetch<B: Board, C: Cabinet>(
    p: &mut Processor,
    board: &mut B,
    side: &mut C,
) -> Result<Option<u16>, Gone>
    ensures { Played C.meaning C.becomes (fetches p.old) (B.meaning board.old) side.old (beside result p.new) (B.meaning board.new) side.new }
{
    Machine {
        processor: p,
        board,
        side,
    }
    .fetch()
}

// Where an operand lies.
pub fn locate<B: Board, C: Cabinet>(
    p: &mut Processor,
    board: &mut B,
    side: &mut C,
    size: Size,
    operand: Operand,
) -> Result<Option<Location>, Gone>
    ensures { Played C.meaning C.becomes (locates size operand p.old) (B.meaning board.old) side.old (beside result p.new) (B.meaning board.new) side.new }
{
    Machine {
        processor: p,
        board,
        side,
    }
    .locate(size, operand)
}

// Writes an operand.
pub fn give<B: Board, C: Cabinet>(
    p: &mut Processor,
    board: &mut B,
    side: &mut C,
    size: Size,
    location: Location,
    value: u16,
) -> Result<Option<()>, Gone>
    ensures { Played C.meaning C.becomes (gives size location value p.old) (B.meaning board.old) side.old (beside result p.new) (B.meaning board.new) side.new }
{
    Machine {
        processor: p,
        board,
        side,
    }
    .give(size, location, value)
}
