// Where in a capture a refusal was found.
ghost use Rattle.std.specs.Prelude.{◌≡◌, ◌≤◌};
ghost use Rattle.inspection.specs.Places.{record_from, refused_block, refused_byte};

use capture::block::{AFTER_HEADER, BLOCK, LAST_WORD, MOST_BLOCKS, RECORDS, USED, used_bytes};
use capture::{Refusal, check_block, check_record};

// The first block that is refused, or how many there are.
pub fn refused_block(bytes: &[u8]) -> usize
    ensures value { result ≡ refused_block bytes.now }
    ensures bound { result ≤ 4096 }
{
    let (blocks, _) = bytes.as_chunks::<BLOCK>();
    let blocks = &blocks[..blocks.len().min(MOST_BLOCKS)];
    // A `for`: `position` would count the blocks a second time, since each is asked under its number from `enumerate`.
    for (number, block) in blocks.iter().enumerate() {
        if check_block(number as u16, block).is_err() {
            return number;
        }
    }
    blocks.len()
}

// The place in its block of the first refused record of these bytes, or of their end. Each record says where the next begins.
fn refused_record(bytes: &[u8]) -> usize
    ensures { result ≡ record_from 4 0 bytes.now }
{
    let mut rest = bytes;
    while !rest.is_empty() && check_record(rest).is_ok() {
        rest = &rest[rest[0] as usize + AFTER_HEADER..];
    }
    RECORDS + (bytes.len() - rest.len())
}

// The byte of a block that its refusal speaks of.
pub fn refused_byte(refusal: Refusal, block: &[u8]) -> usize
    ensures { result ≡ refused_byte refusal block.now }
{
    match refusal {
        Refusal::Blocks | Refusal::Number => 0,
        Refusal::Used => USED,
        Refusal::Checksum => LAST_WORD,
        Refusal::Length | Refusal::Fields => refused_record(used_bytes(block)),
    }
}
