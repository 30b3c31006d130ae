// Kinds of exchange, and the numbers that stand for them in records.
ghost use Rattle.std.specs.Prelude.{◌≡◌};
ghost use Rattle.capture.specs.Exchanges.{kind_of};
ghost use Rattle.capture.specs.Kinds.{kind_number, kind_numbered};

use crate::refusal::Refusal;
use bus::Request;

// A kind for each request.
#[derive(Clone, Copy, PartialEq, Eq, Debug)]
pub enum Kind {
    Read = 1,
    Write = 2,
    WriteByte = 3,
    Lines = 4,
    Vector = 5,
    Init = 6,
}

impl Kind {
    // The number that stands for it in a record.
    pub fn number(self) -> u8
        ensures { result ≡ kind_number self }
    {
        self as u8
    }
}

// Another number than 1 to 6 stands for no kind.
impl TryFrom<u8> for Kind {
    type Error = Refusal;

    ghost try_from_gives = { λ number kind. kind ≡ kind_numbered number };

    fn try_from(number: u8) -> Result<Kind, Refusal> {
        match number {
            1 => Ok(Kind::Read),
            2 => Ok(Kind::Write),
            3 => Ok(Kind::WriteByte),
            4 => Ok(Kind::Lines),
            5 => Ok(Kind::Vector),
            6 => Ok(Kind::Init),
            _ => Err(Refusal::Fields),
        }
    }
}

impl From<Request> for Kind {
    ghost from_gives = { λ request kind. kind_number kind ≡ kind_of request };

    fn from(request: Request) -> Kind {
        match request {
            Request::Read(_) => Kind::Read,
            Request::Write(_, _) => Kind::Write,
            Request::WriteByte(_, _) => Kind::WriteByte,
            Request::Lines => Kind::Lines,
            Request::Vector => Kind::Vector,
            Request::Init => Kind::Init,
        }
    }
}
