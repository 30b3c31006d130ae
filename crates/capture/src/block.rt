// The measures of a capture: its blocks, and the headers of its records.
ghost use Rattle.std.specs.Prelude.{◌≡◌};
ghost use Rattle.capture.specs.Checking.{used_bytes, whole_blocks};

// A block: number and used count, the record bytes, and the word that brings the sum to 0.
pub const BLOCK: usize = 512;

pub type Block = [u8; BLOCK];

// The used count, the record bytes and the last word begin here.
pub const USED: usize = 2;

pub const RECORDS: usize = 4;

pub const LAST_WORD: usize = 510;

// Captures have 1 to so many blocks.
pub const MOST_BLOCKS: usize = 4096;

// The record bytes of a block, between the used count and the last word.
pub const MOST_USED: usize = 506;

// A record's header without added bytes.
pub const SHORTEST_HEADER: usize = 4;

pub const LONGEST_HEADER: usize = 32;

// The address and the word behind a header.
pub const AFTER_HEADER: usize = 4;

// Whether so many bytes are 1 to 4,096 whole blocks.
pub fn whole_blocks(size: usize) -> bool
    ensures { result ≡ whole_blocks size }
{
    size % BLOCK == 0 && size > 0 && size <= MOST_BLOCKS * BLOCK
}

// The used record bytes of a block, as far as it goes.
pub fn used_bytes(block: &[u8]) -> &[u8]
    ensures { result.now ≡ used_bytes block.now }
{
    let [_, _, used_low, used_high, rest @ ..] = block else {
        return &[];
    };
    let used = u16::from_le_bytes([*used_low, *used_high]) as usize;
    rest.get(..used).unwrap_or(rest)
}
