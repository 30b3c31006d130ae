// Words of an image, low byte first.
ghost use Rattle.std.specs.Prelude.{◌≡◌, ◌+◌, ◌*◌, ◌%◌};
ghost use Rattle.image.specs.Images.{word_at, words_at};

use crate::bytes::Image;

// The word at the even address at or below `address`.
pub fn word_at(image: &Image, address: u16) -> u16
    ensures { result ≡ word_at image.now address }
{
    let low = usize::from(address - address % 2);
    u16::from_le_bytes([image[low], image[low + 1]])
}

// That word and the two that follow; behind 177776 comes 000000.
pub fn words_at(image: &Image, address: u16) -> [u16; 3]
    ensures { result ≡ words_at image.now address }
{
    [0, 2, 4].map(|step| word_at(image, address.wrapping_add(step)))
}

// The address so many words further on.
pub fn next_address(address: u16, words: usize) -> u16
    ensures { result ≡ (address + 2 * words) % 65536 }
{
    address.wrapping_add((words % 32_768 * 2) as u16)
}
