// What every memory board does, whatever its make.
ghost use Rattle.std.specs.Prelude.{◌≡◌};
ghost use Rattle.bus.specs.Memory.{Memory, read, write, write_byte};

// The first address of the cabinet page, which ends at 0o177777; lower addresses belong to the board.
pub const PAGE: u16 = 0o177600;

// A memory board holds the addresses below the cabinet page. At each even address it is silent, fixed with a word or
// open with a word; its meaning says so by word number, the address halved. `None` is a time-out, here and below.
pub trait Board {
    ghost meaning: { Self → Memory };

    // The word at the even address at or below `at`.
    fn read(&self, at: u16) -> Option<u16>
        ensures { result ≡ read (meaning self.now) at };

    // Replaces that word where it is open.
    fn write(&mut self, at: u16, word: u16) -> Option<()>
        ensures { (result, meaning self.new) ≡ write (meaning self.old) at word };

    // Replaces one half of that word where it is open: the low half if `at` is even.
    fn write_byte(&mut self, at: u16, byte: u8) -> Option<()>
        ensures { (result, meaning self.new) ≡ write_byte (meaning self.old) at byte };
}
