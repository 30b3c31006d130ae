// Why bytes are no image of a board.
ghost use Rattle.std.specs.Prelude.{◌≡◌};
ghost use Rattle.image.specs.Images.{refusal_number};

#[derive(Clone, Copy, Debug)]
pub enum Refusal {
    // There are more or fewer than 65,536 bytes.
    WrongSize = 1,
}

impl Refusal {
    // The refusal's number, as programs print it.
    pub fn number(self) -> u8
        ensures { result ≡ refusal_number self }
    {
        self as u8
    }
}
