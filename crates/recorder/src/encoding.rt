// The bytes of an exchange's record.
ghost use Rattle.std.specs.Prelude.{◌≡◌, ◌+◌, ◌⊎◌, take};
ghost use Rattle.capture.specs.Exchanges.{address_of, word_of, record_of, exchange_is_lawful};
ghost use Rattle.capture.specs.Layout.{stamped};
ghost use Rattle.recorder.specs.Recording.{added_by};

use bus::{Exchange, PAGE, Request};
use capture::Kind;
use capture::checks::MOST_LINES;

// The header length without added bytes, and with the rig's number: plain numbers, as a rig holds them.
pub(crate) const PLAIN_HEADER: u8 = 4;

pub(crate) const NUMBERED_HEADER: u8 = 6;

// The longest record that is written.
pub(crate) const LONGEST: usize = 10;

fn address(request: Request) -> u16
    ensures { result ≡ address_of request }
{
    match request {
        Request::Read(at) | Request::Write(at, _) | Request::WriteByte(at, _) => at,
        Request::Lines | Request::Vector | Request::Init => 0,
    }
}

// The word sent or answered, else 0.
fn word(request: Request, reply: Option<u16>) -> u16
    ensures { result ≡ word_of request reply }
{
    match request {
        Request::Write(_, word) => word,
        Request::WriteByte(_, byte) => u16::from(byte),
        Request::Init => 0,
        Request::Read(_) | Request::Lines | Request::Vector => reply.unwrap_or(0),
    }
}

// Whether there can be such an exchange.
pub(crate) fn lawful(exchange: Exchange) -> bool
    ensures { result ≡ exchange_is_lawful exchange }
{
    let Exchange { request, reply } = exchange;
    let no_word = reply.unwrap_or(0) == 0;
    match request {
        Request::Read(at) => at >= PAGE && at % 2 == 0,
        Request::Write(at, _) => at >= PAGE && at % 2 == 0 && no_word,
        Request::WriteByte(at, _) => at >= PAGE && no_word,
        Request::Lines => reply.is_some_and(|word| word <= MOST_LINES),
        Request::Vector => true,
        Request::Init => reply == Some(0),
    }
}

// The bytes of a record under header length 4 or 6, with zeros past them. With no heap they stand in an array for the longest record.
pub(crate) fn record_bytes(header: u8, number: u16, exchange: Exchange) -> [u8; LONGEST]
    requires { (header ≡ 4) ⊎ (header ≡ 6) }
    ensures { take (header + 4) result ≡ stamped (added_by header number) (record_of exchange) }
{
    let Exchange { request, reply } = exchange;
    let kind = Kind::from(request).number();
    let mark = u8::from(reply.is_some());
    let [address_low, address_high] = address(request).to_le_bytes();
    let [word_low, word_high] = word(request, reply).to_le_bytes();
    if header == NUMBERED_HEADER {
        let [number_low, number_high] = number.to_le_bytes();
        [
            header,
            kind,
            mark,
            0,
            number_low,
            number_high,
            address_low,
            address_high,
            word_low,
            word_high,
        ]
    } else {
        [
            header,
            kind,
            mark,
            0,
            address_low,
            address_high,
            word_low,
            word_high,
            0,
            0,
        ]
    }
}
