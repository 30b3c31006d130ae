// Words in a slice of bytes, low byte first.
ghost use Rattle.std.specs.Prelude.{◌≡◌, ◌+◌, ◌*◌, ◌/◌, ◌<◌, true, slice_index};
ghost use Rattle.bus.specs.Memory.{opened, with_half, word_of};
ghost use Rattle.bus.specs.Boards.{held, put, whole, with_byte, with_word};

// The word of that number, if both its bytes are there.
pub(crate) fn word_at(bytes: &[u8], number: u16) -> Option<u16>
    ensures word { result ≡ word_of (held opened bytes.now number) }
    ensures halves { whole bytes.now number ≡ true → (slice_index bytes.now (2 * number) < 256) × (slice_index bytes.now (2 * number + 1) < 256) }
{
    let low = 2 * number as usize;
    if low + 1 < bytes.len() {
        return Some(u16::from_le_bytes([bytes[low], bytes[low + 1]]));
    }
    None
}

// Replaces the word of that number, if both its bytes are there.
pub(crate) fn put_word(bytes: &mut [u8], number: u16, word: u16) -> Option<()>
    ensures { (result, bytes.new) ≡ put (whole bytes.old number) (with_word bytes.old number word) bytes.old }
{
    let low = 2 * number as usize;
    if low + 1 < bytes.len() {
        [bytes[low], bytes[low + 1]] = word.to_le_bytes();
        return Some(());
    }
    None
}

// Replaces the byte at an address, if its word is there.
pub(crate) fn put_byte(bytes: &mut [u8], at: u16, byte: u8) -> Option<()>
    ensures bytes { (result, bytes.new) ≡ put (whole bytes.old (at / 2)) (with_byte bytes.old at byte) bytes.old }
    ensures halves { whole bytes.old (at / 2) ≡ true → (slice_index bytes.old (2 * (at / 2)) < 256) × (slice_index bytes.old (2 * (at / 2) + 1) < 256) }
{
    word_at(bytes, at / 2)?;
    bytes[at as usize] = byte;
    Some(())
}

// A word with one half replaced: the low half if `at` is even.
pub(crate) fn with_half(old: u16, at: u16, byte: u8) -> u16
    ensures { result ≡ with_half at byte old }
{
    let [low, high] = old.to_le_bytes();
    u16::from_le_bytes(if at % 2 == 0 {
        [byte, high]
    } else {
        [low, byte]
    })
}
