// The recorder: a lent buffer and plain numbers, its bytes always the layout of the records so far.
ghost use Rattle.std.specs.Prelude.{◌≡◌, ◌*◌, ◌≤◌, true, length};
ghost use Rattle.capture.specs.Lawful.{all_writable};
ghost use Rattle.recorder.specs.Recording.{header_allowed, laid, places, found_in};

// The lent buffer, and how many records stand in it: the project fixes a lent buffer and plain numbers for recorders.
#[derive(Drop)]
pub(crate) struct Sheets<'a> {
    pub(crate) buffer: &'a mut [u8],
    pub(crate) count: usize,
}

// Only opening makes one, with empty blocks; each record then goes to the first block with place for it.
#[derive(Drop)]
pub struct Recorder<'a> {
    pub(crate) sheets: Sheets<'a>,
    pub(crate) header: u8,
    pub(crate) number: u16,
    pub(crate) blocks: usize,
    ghost allowed: { header_allowed header ≡ true },
    ghost most: { blocks ≤ 4096 },
    ghost whole: { length sheets.buffer.now ≡ 512 * blocks },
    ghost place: { sheets.count ≤ places header blocks },
    ghost many: { length (found_in blocks sheets.buffer.now) ≡ sheets.count },
    ghost sound: { all_writable (found_in blocks sheets.buffer.now) ≡ true },
    ghost stands: { sheets.buffer.now ≡ laid header number blocks (found_in blocks sheets.buffer.now) },
}
