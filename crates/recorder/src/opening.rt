// Opening a recorder: the questions, and then the making, which fills the buffer with empty blocks.
ghost use Rattle.std.specs.Prelude.{◌≡◌, ◌+◌, ◌*◌, ◌/◌, ◌≤◌, [], ◌++◌, length, take, replicate, is_ok, if◌then◌else◌};
ghost use Rattle.capture.specs.Blocks.{sealed, unsealed, zeros_after, block_bytes};
ghost use Rattle.recorder.specs.Recording.{laid};
ghost use Rattle.recorder.specs.Opening.{opening, opening_number};
ghost use Rattle.recorder.specs.Noting.{empty_blocks};
ghost use Rattle.recorder.specs.Made.{bytes_of, made};

use crate::encoding::{NUMBERED_HEADER, PLAIN_HEADER};
use crate::recorder::{Recorder, Sheets};
use capture::block::{BLOCK, Block, LAST_WORD, RECORDS, USED, whole_blocks};
use capture::checksum;

// Why no recorder can be opened, each with the number by which operators know it.
#[derive(Clone, Copy, PartialEq, Eq, Debug)]
pub enum Refusal {
    // Not 1 to 4,096 whole blocks.
    Blocks = 3,
    // A header length other than 4 and 6.
    Header = 4,
}

impl Refusal {
    // The number by which operators know it.
    pub fn number(self) -> u8
        ensures { result ≡ opening_number self }
    {
        self as u8
    }
}

// Sets the last word, so that the block adds up to 0.
fn seal(block: &mut Block)
    ensures { block.new ≡ sealed (take 510 block.old) }
{
    let balance = checksum(&block[..LAST_WORD]).wrapping_neg();
    block[LAST_WORD..].copy_from_slice(&balance.to_le_bytes());
}

// Number, used count, the records before and a further one over zeros, which stay behind them: all but the last word.
fn lay(block: &mut Block, number: u16, before: &[u8], rec: &[u8])
    requires zeros { block.old ≡ replicate 512 0 }
    requires fit { length before.now + length rec.now ≤ 506 }
    ensures { take 510 block.new ≡ unsealed number (before.now ++ rec.now) (zeros_after (before.now ++ rec.now)) }
{
    let at = RECORDS + before.len();
    let end = at + rec.len();
    let used = (end - RECORDS) as u16;
    block[0..USED].copy_from_slice(&number.to_le_bytes());
    block[USED..RECORDS].copy_from_slice(&used.to_le_bytes());
    block[RECORDS..at].copy_from_slice(before);
    block[at..end].copy_from_slice(rec);
}

// Makes zeros the block of that number with the records before and a further one: in a place of the caller's, since a block that is
// answered is copied once more.
pub(crate) fn write_block(block: &mut Block, number: u16, before: &[u8], rec: &[u8])
    requires zeros { block.old ≡ replicate 512 0 }
    requires fit { length before.now + length rec.now ≤ 506 }
    ensures { block.new ≡ block_bytes number (before.now ++ rec.now) }
{
    lay(block, number, before, rec);
    seal(block);
}

// Fills the buffer with empty blocks.
fn fill_empty(buffer: &mut [u8], blocks: usize)
    requires { (length buffer.old ≡ 512 * blocks) × (blocks ≤ 4096) }
    ensures { buffer.new ≡ empty_blocks 0 blocks }
{
    // By index: of chunks_exact_mut and as_chunks_mut the library does not say what the buffer ends as.
    for b in 0..blocks {
        let mut block = [0; BLOCK];
        write_block(&mut block, b as u16, &[], &[]);
        buffer[BLOCK * b..BLOCK * b + BLOCK].copy_from_slice(&block);
    }
}

impl<'a> Recorder<'a> {
    // Whether a recorder can be opened over so many bytes with such headers. Nothing is touched. A header length is a number: any
    // is asked about, and all but two are refused.
    pub fn question(size: usize, header: u8) -> Result<(), Refusal>
        ensures { result ≡ opening size header }
    {
        if !whole_blocks(size) {
            return Err(Refusal::Blocks);
        }
        if header != PLAIN_HEADER && header != NUMBERED_HEADER {
            return Err(Refusal::Header);
        }
        Ok(())
    }

    // The making, which cannot refuse: the buffer becomes empty blocks. Where the question refuses, the recorder has no
    // block and place for no record.
    pub fn open(buffer: &'a mut [u8], header: u8, number: u16) -> Recorder<'a>
        ensures blocks { result.blocks ≡ (if is_ok (opening (length buffer.old) header) then length buffer.old / 512 else 0) }
        ensures header { result.header ≡ (if is_ok (opening (length buffer.old) header) then header else 4) }
        ensures number { result.number ≡ number }
        ensures made { made result ≡ [] }
        ensures bytes { bytes_of result ≡ laid result.header result.number result.blocks [] }
    {
        let size = buffer.len();
        let Ok(()) = Recorder::question(size, header) else {
            return Recorder {
                sheets: Sheets {
                    buffer: &mut [],
                    count: 0,
                },
                header: PLAIN_HEADER,
                number,
                blocks: 0,
            };
        };
        let blocks = size / BLOCK;
        fill_empty(buffer, blocks);
        Recorder {
            sheets: Sheets { buffer, count: 0 },
            header,
            number,
            blocks,
        }
    }
}
