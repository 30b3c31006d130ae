// The cabinet board: RAM at the bottom of memory, ROM in its upper half.
ghost use Rattle.std.specs.Prelude.{◌≡◌, ℕ, ◌/◌, ◌&&◌, [], ◌∷◌, nat_lt};
ghost use Rattle.bus.specs.Memory.{write, write_byte};
ghost use Rattle.bus.specs.Boards.{cabinet_board, put, whole, with_byte, with_word};
ghost use Rattle.bus.specs.Refusals.{even_at_most, ordered, told};

use crate::board::{Board, PAGE};
use crate::refusal::Refusal;
use crate::words::{put_byte, put_word, word_at};

// Where ROM begins, and RAM has to end.
const ROM: u16 = 0o100000;

// The most bytes of RAM, which end at ROM, and of ROM, which end at the cabinet page.
const RAM_BYTES: usize = 32_768;

const ROM_BYTES: usize = 32_640;

// Says that a cabinet board's questions were asked and answered yes.
#[derive(Clone, Copy)]
pub struct CabinetSizes {
    ram: usize,
    rom: usize,
}

// A board with open RAM from 000000 and fixed ROM from 100000, low byte first; the rest is silent.
#[derive(Drop)]
pub struct CabinetBoard<'a> {
    ram: &'a mut [u8],
    rom: &'a [u8],
}

impl<'a> CabinetBoard<'a> {
    // May a cabinet board be made over so many bytes of RAM and of ROM? RAM is asked first, and refused with 1, ROM with 2.
    pub fn question(ram: usize, rom: usize) -> Result<CabinetSizes, Refusal>
        ensures { told (λ s. s.ram ∷ (s.rom ∷ [])) result ≡ ordered ((even_at_most 32768 ram, (1, [])) ∷ ((even_at_most 32640 rom, (2, [])) ∷ [])) (0, ram ∷ (rom ∷ [])) }
    {
        if ram % 2 != 0 || ram > RAM_BYTES {
            return Err(Refusal::Ram);
        }
        if rom % 2 != 0 || rom > ROM_BYTES {
            return Err(Refusal::Rom);
        }
        Ok(CabinetSizes { ram, rom })
    }

    // The board over bytes of which that was asked: it means what they hold.
    pub fn over(ram: &'a mut [u8], rom: &'a [u8], _sizes: CabinetSizes) -> CabinetBoard<'a>
        ensures lent { (result.ram.now ≡ ram.old) × (result.ram.ghost_name ≡ ram.entry.ghost_name) }
        ensures shown { result.rom.now ≡ rom.now }
    {
        CabinetBoard { ram, rom }
    }
}

// Not one with the flat board's: words are put by the same functions, and the bounds, which are left, differ.
impl Board for CabinetBoard<'_> {
    ghost meaning = { λ b. cabinet_board b.ram.now b.rom.now };

    fn read(&self, at: u16) -> Option<u16> {
        if at < ROM {
            return word_at(self.ram, at / 2);
        }
        if at < PAGE {
            return word_at(self.rom, at / 2 - ROM / 2);
        }
        None
    }

    fn write(&mut self, at: u16, word: u16) -> Option<()>
        ensures meant { (result, cabinet_board self.new.ram.now self.new.rom.now) ≡ write (cabinet_board self.old.ram.now self.old.rom.now) at word }
        ensures bytes { (result, self.new.ram.now) ≡ put (nat_lt at 32768 && whole self.old.ram.now (at / 2)) (with_word self.old.ram.now (at / 2) word) self.old.ram.now }
    {
        if at < ROM {
            return put_word(self.ram, at / 2, word);
        }
        None
    }

    fn write_byte(&mut self, at: u16, byte: u8) -> Option<()>
        ensures meant { (result, cabinet_board self.new.ram.now self.new.rom.now) ≡ write_byte (cabinet_board self.old.ram.now self.old.rom.now) at byte }
        ensures bytes { (result, self.new.ram.now) ≡ put (nat_lt at 32768 && whole self.old.ram.now (at / 2)) (with_byte self.old.ram.now at byte) self.old.ram.now }
    {
        if at < ROM {
            return put_byte(self.ram, at, byte);
        }
        None
    }
}
