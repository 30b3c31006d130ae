// Records as they are handed out: one case for each request.
ghost use Rattle.std.specs.Prelude.{◌≡◌};
ghost use Rattle.capture.specs.Handed.{shown, added_of};
ghost use Rattle.capture.specs.Exchanges.{exchange_of};

use bus::{Exchange, Request};

// A record of a checked capture. `added` is what its header has beyond four bytes, as a part of the capture.
// `answered` stands beside a word or byte that was sent, not answered, so the two are no `Option`.
#[derive(Clone, Copy)]
pub enum Record<'a> {
    Read {
        address: u16,
        reply: Option<u16>,
        added: &'a [u8],
    },
    Write {
        address: u16,
        word: u16,
        answered: bool,
        added: &'a [u8],
    },
    WriteByte {
        address: u16,
        byte: u8,
        answered: bool,
        added: &'a [u8],
    },
    Lines {
        word: u16,
        added: &'a [u8],
    },
    Vector {
        reply: Option<u16>,
        added: &'a [u8],
    },
    Init {
        added: &'a [u8],
    },
}

impl<'a> Record<'a> {
    // The exchange that was recorded.
    pub fn exchange(self) -> Exchange
        ensures { result ≡ exchange_of (shown self.entry) }
    {
        match self {
            Record::Read { address, reply, .. } => Exchange {
                request: Request::Read(address),
                reply,
            },
            Record::Write {
                address,
                word,
                answered,
                ..
            } => {
                Exchange {
                    request: Request::Write(address, word),
                    reply: answered.then_some(0),
                }
            }
            Record::WriteByte {
                address,
                byte,
                answered,
                ..
            } => {
                Exchange {
                    request: Request::WriteByte(address, byte),
                    reply: answered.then_some(0),
                }
            }
            Record::Lines { word, .. } => Exchange {
                request: Request::Lines,
                reply: Some(word),
            },
            Record::Vector { reply, .. } => Exchange {
                request: Request::Vector,
                reply,
            },
            Record::Init { .. } => Exchange {
                request: Request::Init,
                reply: Some(0),
            },
        }
    }

    // The bytes that its header adds.
    pub fn added(self) -> &'a [u8]
        ensures { result.now ≡ added_of self.entry }
    {
        match self {
            Record::Read { added, .. }
            | Record::Write { added, .. }
            | Record::WriteByte { added, .. }
            | Record::Lines { added, .. }
            | Record::Vector { added, .. }
            | Record::Init { added } => added,
        }
    }
}
