// Whether bytes are a capture: the questions, in the order asked.
ghost use Rattle.std.specs.Prelude.{◌≡◌, ◌+◌, ◌*◌, ◌<◌, [], length, Ok};
ghost use Rattle.capture.specs.Words.{word_at};
ghost use Rattle.capture.specs.Records.{plain};
ghost use Rattle.capture.specs.Kinds.{kind_number};
ghost use Rattle.capture.specs.Lawful.{lawful, fits_within};
ghost use Rattle.capture.specs.Checksum.{part_at, block_sum};
ghost use Rattle.capture.specs.Checking.{one_read, read_then, head_answer, read_capture, verdict, block_alone, block_verdict};

use crate::block::{
    AFTER_HEADER, BLOCK, Block, LONGEST_HEADER, MOST_USED, SHORTEST_HEADER, used_bytes,
    whole_blocks,
};
use crate::kind::Kind;
use crate::refusal::Refusal;
use bus::PAGE;

// A bit for each of four request lines.
pub const MOST_LINES: u16 = 0o17;

pub(crate) fn word_at(bytes: &[u8], at: usize) -> u16
    requires { at + 1 < length bytes.now }
    ensures { result ≡ word_at bytes.now at }
{
    u16::from_le_bytes([bytes[at], bytes[at + 1]])
}

// What a byte adds to the sum of words: at an odd place it is a high half.
fn part_at(i: usize, byte: u8) -> u16
    ensures { result ≡ part_at i byte }
{
    if i % 2 == 0 {
        u16::from(byte)
    } else {
        u16::from_le_bytes([0, byte])
    }
}

// The sum of the words of a block.
pub fn checksum(block: &[u8]) -> u16
    ensures { result ≡ block_sum block.now }
{
    // The project fixes this loop over the bytes with their index, for the sum that wraps.
    let mut sum: u16 = 0;
    for (i, b) in block.iter().enumerate() {
        sum = sum.wrapping_add(part_at(i, *b));
    }
    sum
}

// Whether a record of this kind may have these fields. The mark is asked as it stands, since bytes other than 0 and 1 are refused.
fn fields_allowed(kind: Kind, mark: u8, address: u16, word: u16) -> bool
    ensures { result ≡ lawful (plain (kind_number kind) mark address word) }
{
    let page = address >= PAGE;
    let word_if_answered = mark == 1 || word == 0;
    mark <= 1
        && match kind {
            Kind::Read => page && address % 2 == 0 && word_if_answered,
            Kind::Write => page && address % 2 == 0,
            Kind::WriteByte => page && word < 256,
            Kind::Lines => address == 0 && mark == 1 && word <= MOST_LINES,
            Kind::Vector => address == 0 && word_if_answered,
            Kind::Init => address == 0 && mark == 1 && word == 0,
        }
}

// Whether the record that the bytes begin with has a lawful header length, and ends within them.
fn ends_within(bytes: &[u8]) -> bool
    ensures { result ≡ fits_within bytes.now }
{
    let [header, ..] = bytes else {
        return false;
    };
    let header = *header as usize;
    header >= SHORTEST_HEADER && header <= LONGEST_HEADER && header + AFTER_HEADER <= bytes.len()
}

// The questions of the record that the bytes begin with.
pub fn check_record(bytes: &[u8]) -> Result<(), Refusal>
    ensures { result ≡ verdict (one_read bytes.now) }
{
    if !ends_within(bytes) {
        return Err(Refusal::Length);
    }
    let header = bytes[0] as usize;
    let kind = Kind::try_from(bytes[1])?;
    if !fields_allowed(
        kind,
        bytes[2],
        word_at(bytes, header),
        word_at(bytes, header + 2),
    ) {
        return Err(Refusal::Fields);
    }
    Ok(())
}

// The questions of records one after another. Each says where the next begins, so no iterator of the library steps over them.
fn check_records(bytes: &[u8]) -> Result<(), Refusal>
    ensures { result ≡ verdict (read_then 0 bytes.now (Ok [])) }
{
    let mut rest = bytes;
    while let [header, ..] = rest {
        check_record(rest)?;
        rest = &rest[*header as usize + AFTER_HEADER..];
    }
    Ok(())
}

// The questions of a block before its records.
fn check_head(number: u16, found: u16, used: u16, sum: u16) -> Result<(), Refusal>
    ensures { result ≡ head_answer number found used sum }
{
    if found != number {
        return Err(Refusal::Number);
    }
    if used > MOST_USED as u16 {
        return Err(Refusal::Used);
    }
    if sum != 0 {
        return Err(Refusal::Checksum);
    }
    Ok(())
}

// The questions of a whole block.
fn check_whole_block(number: u16, block: &Block) -> Result<(), Refusal>
    ensures { result ≡ block_alone number block.now }
{
    let [number_low, number_high, used_low, used_high, ..] = block;
    check_head(
        number,
        u16::from_le_bytes([*number_low, *number_high]),
        u16::from_le_bytes([*used_low, *used_high]),
        checksum(block),
    )?;
    check_records(used_bytes(block))
}

// Whether these bytes are the block of that number: 512 bytes, and then what is asked of each block of a capture.
pub fn check_block(number: u16, block: &[u8]) -> Result<(), Refusal>
    ensures { result ≡ block_verdict number block.now }
{
    check_whole_block(number, block.as_array().ok_or(Refusal::Blocks)?)
}

// Whether these bytes are a capture; if not, the first reason.
pub fn check(bytes: &[u8]) -> Result<(), Refusal>
    ensures { result ≡ verdict (read_capture bytes.now) }
{
    if !whole_blocks(bytes.len()) {
        return Err(Refusal::Blocks);
    }
    let (blocks, _) = bytes.as_chunks::<BLOCK>();
    for (number, block) in blocks.iter().enumerate() {
        check_whole_block(number as u16, block)?;
    }
    Ok(())
}
