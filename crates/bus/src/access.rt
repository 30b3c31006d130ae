// Accesses at an address: the board's below the cabinet page, the cabinet side's on it. Board and side are two
// parameters: each access takes one of them alone.
ghost use Rattle.bus.specs.Courses.{Played};
ghost use Rattle.bus.specs.Accesses.{loads, stores, stores_byte};

use crate::board::{Board, PAGE};
use crate::cabinet::Cabinet;
use crate::exchange::{Gone, Request};

// The word at the even address at or below `at`, or a time-out.
pub fn load<B: Board, C: Cabinet>(board: &mut B, side: &mut C, at: u16) -> Result<Option<u16>, Gone>
    ensures { Played C.Cabinet.meaning C.Cabinet.becomes (loads at) (B.Board.meaning board.old) side.old result (B.Board.meaning board.new) side.new }
{
    if at < PAGE {
        return Ok(board.read(at));
    }
    side.ask(Request::Read(at - at % 2))
}

// Writes a word at the even address at or below `at`.
pub fn store<B: Board, C: Cabinet>(
    board: &mut B,
    side: &mut C,
    at: u16,
    word: u16,
) -> Result<Option<()>, Gone>
    ensures { Played C.Cabinet.meaning C.Cabinet.becomes (stores at word) (B.Board.meaning board.old) side.old result (B.Board.meaning board.new) side.new }
{
    if at < PAGE {
        return Ok(board.write(at, word));
    }
    let reply = side.ask(Request::Write(at - at % 2, word))?;
    Ok(reply.map(|_| ()))
}

// Writes a byte at `at`. Not one function with `store`: an odd address stays, and board and side are asked by other names.
pub fn store_byte<B: Board, C: Cabinet>(
    board: &mut B,
    side: &mut C,
    at: u16,
    byte: u8,
) -> Result<Option<()>, Gone>
    ensures { Played C.Cabinet.meaning C.Cabinet.becomes (stores_byte at byte) (B.Board.meaning board.old) side.old result (B.Board.meaning board.new) side.new }
{
    if at < PAGE {
        return Ok(board.write_byte(at, byte));
    }
    let reply = side.ask(Request::WriteByte(at, byte))?;
    Ok(reply.map(|_| ()))
}
