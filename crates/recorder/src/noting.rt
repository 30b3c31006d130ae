// Noting exchanges, and closing.
ghost use Rattle.std.specs.Prelude.{◌≡◌, ℕ, ◌+◌, ◌-◌, ◌*◌, ◌/◌, ◌^◌, ◌<◌, ◌≤◌, [], ◌∷◌, ◌++◌, map, length, is_ok, if◌then◌else◌, Ok, Err, nat_lt};
ghost use Rattle.capture.specs.declared.refusal.Refusal.TheVariants.{Blocks};
ghost use Rattle.capture.specs.Records.{entry};
ghost use Rattle.capture.specs.Exchanges.{record_of};
ghost use Rattle.capture.specs.Checksum.{block_sum};
ghost use Rattle.capture.specs.Checking.{read_capture};
ghost use Rattle.capture.specs.Remaining.{block_at};
ghost use Rattle.recorder.specs.Recording.{added_by, laid};
ghost use Rattle.recorder.specs.Noting.{noting_answer, noted};
ghost use Rattle.recorder.specs.Made.{bytes_of, made, places_of};

use crate::encoding::{lawful, record_bytes};
use crate::opening::write_block;
use crate::recorder::{Recorder, Sheets};
use bus::Exchange;
use capture::block::{AFTER_HEADER, BLOCK, MOST_USED, RECORDS};

// Why an exchange was not noted.
#[derive(Clone, Copy, PartialEq, Eq, Debug)]
pub enum NotNoted {
    // No cabinet side exchanges this.
    Unlawful,
    // No place is left.
    Full,
}

impl<'a> Sheets<'a> {
    // Puts the next record, of n in a block, in its place.
    fn note(&mut self, n: usize, rec: &[u8])
        requires many { 0 < n }
        requires fit { length rec.now * n ≤ 506 }
        requires low { self.old.count / n < 4096 }
        requires short { self.old.count < 2 ^ 32 }
        requires room { 512 * (self.old.count / n) + 512 ≤ length self.old.buffer.now }
        ensures bytes { self.new.buffer.now ≡ noted (length rec.now) n self.old.count rec.now self.old.buffer.now }
        ensures count { self.new.count ≡ self.old.count + 1 }
    {
        let number = self.count / n;
        let from = BLOCK * number;
        let records = from + RECORDS;
        let at = records + rec.len() * (self.count % n);
        let buffer = &mut *self.buffer;
        let mut block = [0; BLOCK];
        write_block(&mut block, number as u16, &buffer[records..at], rec);
        buffer[from..from + BLOCK].copy_from_slice(&block);
        self.count += 1;
    }
}

impl<'a> Recorder<'a> {
    // How many bytes a record takes.
    fn record_size(&self) -> usize
        ensures { result ≡ self.now.header + 4 }
    {
        self.header as usize + AFTER_HEADER
    }

    // How many records have place in a block.
    fn per_block(&self) -> usize
        ensures { result ≡ 506 / (self.now.header + 4) }
    {
        MOST_USED / self.record_size()
    }

    // How many records have place in all.
    fn places(&self) -> usize
        ensures { result ≡ places_of self.now }
    {
        self.per_block() * self.blocks
    }

    // Adds the record of a lawful exchange, where there is place for it; otherwise nothing changes.
    pub fn note(&mut self, exchange: Exchange) -> Result<(), NotNoted>
        ensures answer { result ≡ noting_answer exchange (length (made self.old)) (places_of self.old) }
        ensures made { made self.new ≡ (if is_ok result then made self.old ++ record_of exchange ∷ [] else made self.old) }
        ensures bytes { bytes_of self.new ≡ laid self.new.header self.new.number self.new.blocks (made self.new) }
        ensures header { self.new.header ≡ self.old.header }
        ensures number { self.new.number ≡ self.old.number }
        ensures blocks { self.new.blocks ≡ self.old.blocks }
    {
        if !lawful(exchange) {
            return Err(NotNoted::Unlawful);
        }
        if self.sheets.count >= self.places() {
            return Err(NotNoted::Full);
        }
        let size = self.record_size();
        let n = self.per_block();
        let bytes = record_bytes(self.header, self.number, exchange);
        self.sheets.note(n, &bytes[..size]);
        Ok(())
    }

    // How many records were made.
    pub fn count(&self) -> usize
        ensures { result ≡ length (made self.now) }
    {
        self.sheets.count
    }

    // For how many more records there is place.
    pub fn place(&self) -> usize
        ensures { result ≡ places_of self.now - length (made self.now) }
    {
        self.places() - self.sheets.count
    }

    // The bytes: the layout of the records made, which the check answers.
    pub fn close(self) -> &'a [u8]
        ensures bytes { result.now ≡ laid self.entry.header self.entry.number self.entry.blocks (made self.entry) }
        ensures check { read_capture result.now ≡ (if nat_lt 0 self.entry.blocks then Ok (map (entry (added_by self.entry.header self.entry.number)) (made self.entry)) else Err Blocks) }
        ensures sums { (b : ℕ) → b < self.entry.blocks → block_sum (block_at result.now b) ≡ 0 }
    {
        let Recorder {
            sheets,
            header,
            number,
            blocks,
        } = self;
        let Sheets { buffer, count } = sheets;
        buffer
    }
}
