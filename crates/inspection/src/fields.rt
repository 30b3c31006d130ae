// The fields by which records are compared, and their texts.
ghost use Rattle.std.specs.Prelude.{◌≡◌, ◌<◌, if◌then◌else◌};
ghost use Rattle.capture.specs.Kinds.{kind_number};
ghost use Rattle.capture.specs.Records.{plain};
ghost use Rattle.capture.specs.Exchanges.{mark_of, answered_word};
ghost use Rattle.capture.specs.Handed.{shown};
ghost use Rattle.inspection.specs.Texts.{kind_text, mark_text, octal_text, hex_digit, hex_text};

use capture::{Kind, Record};

// A record as records are compared; `answered` is its mark, and `word` may be one that was sent, so the two are no `Option`.
#[derive(Clone, Copy, PartialEq, Eq, Debug)]
pub struct Fields {
    pub kind: Kind,
    pub answered: bool,
    pub address: u16,
    pub word: u16,
}

fn of_reply(kind: Kind, address: u16, reply: Option<u16>) -> Fields
    ensures { plain (kind_number result.kind) (if result.answered then 1 else 0) result.address result.word ≡ plain (kind_number kind) (mark_of reply) address (answered_word reply) }
{
    Fields {
        kind,
        answered: reply.is_some(),
        address,
        word: reply.unwrap_or(0),
    }
}

pub fn fields_of(rec: Record) -> Fields
    ensures { plain (kind_number result.kind) (if result.answered then 1 else 0) result.address result.word ≡ shown rec.entry }
{
    match rec {
        Record::Read { address, reply, .. } => of_reply(Kind::Read, address, reply),
        Record::Write {
            address,
            word,
            answered,
            ..
        } => Fields {
            kind: Kind::Write,
            answered,
            address,
            word,
        },
        Record::WriteByte {
            address,
            byte,
            answered,
            ..
        } => Fields {
            kind: Kind::WriteByte,
            answered,
            address,
            word: u16::from(byte),
        },
        Record::Lines { word, .. } => of_reply(Kind::Lines, 0, Some(word)),
        Record::Vector { reply, .. } => of_reply(Kind::Vector, 0, reply),
        Record::Init { .. } => of_reply(Kind::Init, 0, Some(0)),
    }
}

// A kind in words, by its number. It takes no Kind: callers may give any number, and each has a text.
pub fn kind_text(kind: u8) -> &'static str
    ensures { result.now ≡ kind_text kind }
{
    match Kind::try_from(kind) {
        Ok(Kind::Read) => "word read",
        Ok(Kind::Write) => "word write",
        Ok(Kind::WriteByte) => "byte write",
        Ok(Kind::Lines) => "lines",
        Ok(Kind::Vector) => "vector",
        Ok(Kind::Init) | Err(_) => "INIT",
    }
}

// A mark in words. No Display, since what is shown is a bool.
pub fn mark_text(answered: bool) -> &'static str
    ensures { result.now ≡ mark_text (if answered then 1 else 0) }
{
    if answered { "answered" } else { "timed out" }
}

// A word in six octal digits, as listings write it.
pub fn octal(word: u16) -> [u8; 6]
    ensures { result ≡ octal_text word }
{
    listing::octal(word)
}

// By hand: the library's `char::from_digit` answers an Option, and in small letters.
fn hex_digit(digit: u8) -> u8
    requires { digit < 16 }
    ensures { result ≡ hex_digit digit }
{
    if digit < 10 {
        b'0' + digit
    } else {
        b'A' + (digit - 10)
    }
}

// A space and a byte in two hexadecimal digits.
pub fn hex(byte: u8) -> [u8; 3]
    ensures { result ≡ hex_text byte }
{
    [b' ', hex_digit(byte / 16), hex_digit(byte % 16)]
}
