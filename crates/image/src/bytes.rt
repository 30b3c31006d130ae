// Whether bytes are the image of a board.
ghost use Rattle.std.specs.Prelude.{◌≡◌};
ghost use Rattle.image.specs.Images.{told, sized};

use crate::refusal::Refusal;

// A byte for each address of a board, 000000 to 177777.
pub type Image = [u8; 65_536];

// The bytes as an image, if there is one for each address.
pub fn image_of(bytes: &[u8]) -> Result<&Image, Refusal>
    ensures { told (λ image. image.now) result ≡ sized bytes.now }
{
    bytes.as_array().ok_or(Refusal::WrongSize)
}
