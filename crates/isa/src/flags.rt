// The four condition flags, as bits 3 to 0 of a flag word name them and a status word holds them.
ghost use Rattle.std.specs.Prelude.{◌≡◌, ◌<◌};
ghost use Rattle.isa.specs.Reading.{mask};
ghost use Rattle.isa.specs.Status.{flags_of, with_flags};
ghost use Rattle.isa.specs.Word.{mask_bits};

// N: negative, Z: zero, V: overflow, C: carry.
#[derive(Clone, Copy, PartialEq, Eq, Debug)]
pub struct Flags {
    pub n: bool,
    pub z: bool,
    pub v: bool,
    pub c: bool,
}

impl Flags {
    // The flags that bits 3 to 0 of a word are.
    pub(crate) fn from_bits(word: u16) -> Flags
        ensures { result ≡ mask word }
    {
        Flags {
            n: word / 8 % 2 == 1,
            z: word / 4 % 2 == 1,
            v: word / 2 % 2 == 1,
            c: word % 2 == 1,
        }
    }

    // The four bits that the flags are.
    pub(crate) fn bits(self) -> u16
        ensures value { result ≡ mask_bits self }
        ensures bound { result < 0o20 }
    {
        8 * u16::from(self.n) + 4 * u16::from(self.z) + 2 * u16::from(self.v) + u16::from(self.c)
    }

    // The flags that a status word holds.
    #[tactic(auto, unfolding(crate::specs::Status::flags_of))]
    pub fn of_status(status: u16) -> Flags
        ensures { result ≡ flags_of status }
    {
        Flags::from_bits(status % 16)
    }

    // The status word with these flags, its other bits kept.
    #[tactic(auto, unfolding(crate::specs::Status::with_flags))]
    pub fn put_into(self, status: u16) -> u16
        ensures { result ≡ with_flags status self }
    {
        status / 16 * 16 + self.bits()
    }
}
