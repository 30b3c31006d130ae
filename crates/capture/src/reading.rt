// Reading a checked capture: its records in order, and answers to requests from them.
ghost use Rattle.std.specs.Prelude.{◌≡◌, ◌+◌, true, cond, [], length, drop, is_some, is_ok, MatchOption, ⊤};
ghost use Rattle.std.specs.Iterator.{MakesProgress, at_most};
ghost use Rattle.capture.specs.Records.{first_entry};
ghost use Rattle.capture.specs.Checking.{one_read, read_capture, verdict, entries};
ghost use Rattle.capture.specs.Handed.{seen, given, head_of, tail_of};
ghost use Rattle.capture.specs.Feeds.{held, left, exchanges_left, Hands, Stands};
ghost use Rattle.capture.specs.Exchanges.{answers, leaves, answer_is_lawful};

use crate::block::{AFTER_HEADER, BLOCK, SHORTEST_HEADER, used_bytes};
use crate::checks::{check, word_at};
use crate::feed::Feed;
use crate::kind::Kind;
use crate::record::Record;
use crate::refusal::Refusal;
use bus::{Gone, Request};

// The record that the bytes begin with.
fn first_record<'a>(bytes: &'a [u8]) -> Record<'a>
    requires { is_ok (one_read bytes.now) ≡ true }
    ensures { seen result ≡ first_entry bytes.now }
{
    let header = bytes[0] as usize;
    let answered = bytes[2] == 1;
    let address = word_at(bytes, header);
    let word = word_at(bytes, header + 2);
    let added = &bytes[SHORTEST_HEADER..header];
    match Kind::try_from(bytes[1]) {
        Ok(Kind::Read) => Record::Read {
            address,
            reply: answered.then_some(word),
            added,
        },
        Ok(Kind::Write) => Record::Write {
            address,
            word,
            answered,
            added,
        },
        Ok(Kind::WriteByte) => Record::WriteByte {
            address,
            byte: word as u8,
            answered,
            added,
        },
        Ok(Kind::Lines) => Record::Lines { word, added },
        Ok(Kind::Vector) => Record::Vector {
            reply: answered.then_some(word),
            added,
        },
        Ok(Kind::Init) | Err(_) => Record::Init { added },
    }
}

impl<'a> Feed<'a> {
    // The feed of no capture, which holds no record.
    pub fn empty() -> Feed<'a>
        ensures held { held result ≡ [] }
        ensures left { left result ≡ [] }
        ensures used { result.used ≡ 0 }
    {
        Feed {
            bytes: &[],
            block: 0,
            from: 0,
            used: 0,
        }
    }

    // Checks a capture and holds it, with no record used; a refused one leaves an empty feed.
    pub fn check(&mut self, bytes: &'a [u8]) -> Result<(), Refusal>
        ensures answer { result ≡ verdict (read_capture bytes.now) }
        ensures held { held self.new ≡ entries (read_capture bytes.now) }
        ensures left { left self.new ≡ entries (read_capture bytes.now) }
        ensures used { self.new.used ≡ 0 }
    {
        *self = Feed::empty();
        check(bytes)?;
        *self = Feed {
            bytes,
            block: 0,
            from: 0,
            used: 0,
        };
        Ok(())
    }

    // How many records were used.
    pub fn used(&self) -> usize
        ensures count { result ≡ self.now.used }
        ensures left { left self.now ≡ drop result (held self.now) }
    {
        self.used
    }

    // Where the next record stands: its block, its first byte there, and the record bytes from it on.
    fn next_place(&self) -> Option<(usize, usize, &'a [u8])>
        ensures { MatchOption result (left self.now ≡ []) (λ p. Stands self.now p.0 p.1 p.2.now) }
    {
        let (blocks, _) = self.bytes.as_chunks::<BLOCK>();
        let mut from = self.from;
        // By number: the place that is answered is one, and the blocks before the feed's own are left out.
        for block in self.block..blocks.len() {
            let bytes = used_bytes(&blocks[block]);
            if from < bytes.len() {
                return Some((block, from, &bytes[from..]));
            }
            from = 0;
        }
        None
    }

    // The next record, which stays the next.
    pub fn peek(&self) -> Option<Record<'a>>
        ensures { given result ≡ head_of (left self.now) }
    {
        let (_, _, bytes) = self.next_place()?;
        Some(first_record(bytes))
    }

    // Answers a request with the next record, which is used by that, if it is of this request; otherwise the feed is gone, and
    // nothing is used.
    pub fn ask(&mut self, request: Request) -> Result<Option<u16>, Gone>
        ensures answered { result ≡ answers request (exchanges_left self.old) }
        ensures lawful { answer_is_lawful request result ≡ true }
        ensures moved { exchanges_left self.new ≡ leaves request (exchanges_left self.old) }
        ensures held { held self.new ≡ held self.old }
        ensures used { self.new.used ≡ self.old.used + cond (is_ok result) 1 0 }
    {
        let Some(record) = self.peek() else {
            return Err(Gone);
        };
        let exchange = record.exchange();
        if exchange.request != request {
            return Err(Gone);
        }
        let _used = self.next();
        Ok(exchange.reply)
    }
}

// Hands out the records that are left.
impl<'a> Iterator for Feed<'a> {
    type Item = Record<'a>;

    ghost next_gives = { Hands };

    ghost remaining = { λ feed. at_most (length (left feed)) };

    fn next(&mut self) -> Option<Record<'a>>
        ensures answer { given result ≡ head_of (left self.old) }
        ensures held { held self.new ≡ held self.old }
        ensures left { left self.new ≡ tail_of (left self.old) }
        ensures used { self.new.used ≡ self.old.used + cond (is_some result) 1 0 }
        ensures steps { Hands self.old result self.new }
        ensures goes { MakesProgress (λ _. ⊤) (λ feed. at_most (length (left feed))) self.old result self.new }
    {
        let (block, from, bytes) = self.next_place()?;
        *self = Feed {
            bytes: self.bytes,
            block,
            from: from + (bytes[0] as usize + AFTER_HEADER),
            used: self.used + 1,
        };
        Some(first_record(bytes))
    }
}
