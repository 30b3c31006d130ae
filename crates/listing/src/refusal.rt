// Why a listing or a reading back is refused.
ghost use Rattle.std.specs.Prelude.{◌≡◌};
ghost use Rattle.listing.specs.Refused.{refusal_number};

#[derive(Clone, Copy)]
pub enum Refusal {
    // The output has fewer than 28 bytes.
    ShortOutput = 15,
    // No words list to this line at this address.
    NoListing = 16,
}

impl Refusal {
    // The refusal's number, as programs print it.
    pub fn number(self) -> u8
        ensures { result ≡ refusal_number self }
    {
        self as u8
    }
}
