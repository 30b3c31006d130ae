// The panel: a cabinet side that the host sets by hand.
ghost use Rattle.std.specs.Prelude.{◌≡◌, ◌<◌, if◌then◌else◌, Ok, Some};
ghost use Rattle.bus.specs.Panels.{line_word, panel_after, panel_means, place, word_of_panel};

use crate::cabinet::Cabinet;
use crate::exchange::{Gone, Request};
use crate::words::with_half;

// The four request lines; `true` is active.
#[derive(Clone, Copy, Default, PartialEq, Eq, Debug)]
pub struct LineBits {
    pub aclo: bool,
    pub irq2: bool,
    pub irq3: bool,
    pub virq: bool,
}

impl LineBits {
    // The lines as a word: bit 0 ACLO, 1 IRQ2, 2 IRQ3, 3 VIRQ.
    pub fn word(self) -> u16
        ensures { result ≡ line_word self }
    {
        u16::from(self.aclo)
            + 2 * u16::from(self.irq2)
            + 4 * u16::from(self.irq3)
            + 8 * u16::from(self.virq)
    }
}

// Which of the 64 words an address of the page names.
fn place_of(at: u16) -> usize
    ensures { result ≡ place at }
{
    (at / 2 % 64) as usize
}

// A panel answers every request.
fn answer(word: u16) -> Result<Option<u16>, Gone>
    ensures word { result ≡ Ok (Some word) }
    ensures fits { word < 65536 }
{
    Ok(Some(word))
}

// A cabinet side of 64 words, one for each even address of the page, four lines and a vector, set together by the host. It
// stores what is written, never times out and is never gone; INIT changes nothing.
#[derive(Clone, Copy)]
pub struct Panel {
    words: [u16; 64],
    lines: LineBits,
    vector: u16,
}

impl Panel {
    pub fn new(words: [u16; 64], lines: LineBits, vector: u16) -> Panel
        ensures { result ≡ record { words = words; lines = lines; vector = vector } }
    {
        Panel {
            words,
            lines,
            vector,
        }
    }

    // Sets words, lines and vector together.
    pub fn set(&mut self, words: [u16; 64], lines: LineBits, vector: u16)
        ensures { self.new ≡ record { words = words; lines = lines; vector = vector } }
    {
        *self = Panel::new(words, lines, vector);
    }

    // The word at an address of the page.
    pub fn word(&self, at: u16) -> u16
        ensures { result ≡ word_of_panel self.now at }
    {
        self.words[place_of(at)]
    }
}

impl Cabinet for Panel {
    ghost meaning = { λ p q. panel_means p q };

    ghost becomes = { λ p q u. u ≡ panel_after p q };

    fn ask(&mut self, request: Request) -> Result<Option<u16>, Gone> {
        let word = match request {
            Request::Read(at) => self.word(at),
            Request::Write(at, word) => {
                self.words[place_of(at)] = word;
                0
            }
            Request::WriteByte(at, byte) => {
                self.words[place_of(at)] = with_half(self.word(at), at, byte);
                0
            }
            Request::Lines => self.lines.word(),
            Request::Vector => self.vector,
            Request::Init => 0,
        };
        answer(word)
    }
}
