// Why a board is not opened.
ghost use Rattle.std.specs.Prelude.{◌≡◌};
ghost use Rattle.bus.specs.Refusals.{number};

#[derive(Clone, Copy, PartialEq, Eq, Debug)]
pub enum Refusal {
    // The bytes to be written, a flat board's or a cabinet board's RAM, have a length that it cannot have.
    Ram = 1,
    // The ROM has a length that it cannot have.
    Rom = 2,
}

impl Refusal {
    // The number by which operators know it.
    pub fn number(self) -> u8
        ensures { result ≡ number self }
    {
        self as u8
    }
}
