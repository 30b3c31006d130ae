// The feed: a capture that was checked, and how far it is used.
ghost use Rattle.std.specs.Prelude.{◌≡◌, ◌%◌, ◌≤◌, true, map, length, drop, is_ok};
ghost use Rattle.capture.specs.Words.{word_at};
ghost use Rattle.capture.specs.Records.{numbers};
ghost use Rattle.capture.specs.Checking.{read_capture, entries};
ghost use Rattle.capture.specs.Remaining.{block_at, remains};

// Only a check makes one that holds records. The next record stands in `block` or after it, from byte `from` of its record
// bytes on; `used` records were handed out.
// Places are numbers beside the bytes, since what is left is defined by block and byte of the whole capture.
#[derive(Drop)]
pub struct Feed<'a> {
    pub(crate) bytes: &'a [u8],
    pub(crate) block: usize,
    pub(crate) from: usize,
    pub(crate) used: usize,
    ghost whole: { length bytes.now % 512 ≡ 0 },
    ghost short: { word_at (block_at bytes.now block) 2 ≤ 506 },
    ghost passed: { is_ok (remains bytes.now block from) ≡ true },
    ghost stands: { map numbers (entries (remains bytes.now block from)) ≡ map numbers (drop used (entries (read_capture bytes.now))) },
}
