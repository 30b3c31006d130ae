// The flat board: bytes of its caller, all open.
ghost use Rattle.std.specs.Prelude.{◌≡◌, ℕ, ◌/◌, ◌<◌, ◌&&◌, [], ◌∷◌, length, ◌==◌, nat_lt};
ghost use Rattle.bus.specs.Memory.{opened, write, write_byte};
ghost use Rattle.bus.specs.Boards.{flat, put, whole, with_byte, with_word, word_at};
ghost use Rattle.bus.specs.Refusals.{ordered, told};

use crate::board::{Board, PAGE};
use crate::refusal::Refusal;
use crate::words::{put_byte, put_word, word_at};

// How many bytes a flat board holds: every address of 16 bits has one.
const BYTES: usize = 65_536;

// Says that a flat board's question was asked and answered yes.
#[derive(Clone, Copy)]
pub struct FlatSize {
    bytes: usize,
}

// A board over bytes of its caller, low byte first: open everywhere below the cabinet page. The last 128 bytes, the page's,
// are never touched. Over fewer bytes than `question` lets pass it is silent from their end on.
#[derive(Drop)]
pub struct FlatBoard<'a> {
    bytes: &'a mut [u8],
}

impl<'a> FlatBoard<'a> {
    // May a flat board be made over so many bytes? Refused with 1 unless they are 65,536.
    pub fn question(length: usize) -> Result<FlatSize, Refusal>
        ensures { told (λ s. s.bytes ∷ []) result ≡ ordered (((length == 65536), (1, [])) ∷ []) (0, length ∷ []) }
    {
        if length != BYTES {
            return Err(Refusal::Ram);
        }
        Ok(FlatSize { bytes: length })
    }

    // The board over bytes of which that was asked: it means what they hold.
    pub fn over(bytes: &'a mut [u8], _size: FlatSize) -> FlatBoard<'a>
        ensures lent { (result.bytes.now ≡ bytes.old) × (result.bytes.ghost_name ≡ bytes.entry.ghost_name) }
        ensures open { length bytes.old ≡ 65536 → (n : ℕ) → n < 32704 → flat result.bytes.now n ≡ opened (word_at bytes.old n) }
    {
        FlatBoard { bytes }
    }
}

impl Board for FlatBoard<'_> {
    ghost meaning = { λ b. flat b.bytes.now };

    fn read(&self, at: u16) -> Option<u16> {
        if at < PAGE {
            return word_at(self.bytes, at / 2);
        }
        None
    }

    fn write(&mut self, at: u16, word: u16) -> Option<()>
        ensures meant { (result, flat self.new.bytes.now) ≡ write (flat self.old.bytes.now) at word }
        ensures bytes { (result, self.new.bytes.now) ≡ put (nat_lt at 65408 && whole self.old.bytes.now (at / 2)) (with_word self.old.bytes.now (at / 2) word) self.old.bytes.now }
    {
        if at < PAGE {
            return put_word(self.bytes, at / 2, word);
        }
        None
    }

    fn write_byte(&mut self, at: u16, byte: u8) -> Option<()>
        ensures meant { (result, flat self.new.bytes.now) ≡ write_byte (flat self.old.bytes.now) at byte }
        ensures bytes { (result, self.new.bytes.now) ≡ put (nat_lt at 65408 && whole self.old.bytes.now (at / 2)) (with_byte self.old.bytes.now at byte) self.old.bytes.now }
    {
        if at < PAGE {
            return put_byte(self.bytes, at, byte);
        }
        None
    }
}
