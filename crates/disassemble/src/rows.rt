// A line of the listing: the address, the words in columns, and the instruction.
ghost use Rattle.std.specs.Prelude.{◌≡◌, ◌+◌};
ghost use Rattle.image.specs.Images.{word_at, words_at};
ghost use Rattle.isa.specs.Further.{further_words};
ghost use Rattle.isa.specs.Reading.{reading};
ghost use Rattle.listing.specs.Listing.{text};
ghost use Rattle.listing.specs.Shown.{shown};

use image::{Image, words_at};
use isa::decode;
use listing::lister::line_of;
use listing::text_line::Line;
use std::fmt;

#[derive(Clone, Copy)]
pub struct Row {
    pub address: u16,
    pub words: [u16; 3],
    // How many of the words the instruction has: three words are one plain value throughout.
    pub used: usize,
    pub line: Line,
}

// The line of the instruction at an address of an image.
pub fn row_at(image: &Image, address: u16) -> Row
    ensures address { result.address ≡ address }
    ensures words { result.words ≡ words_at image.now address }
    ensures used { result.used ≡ 1 + further_words (reading (word_at image.now address)) }
    ensures listing { shown result.line ≡ text address (words_at image.now address) }
{
    let words = words_at(image, address);
    let used = 1 + usize::from(decode(words[0]).further_words());
    let line = line_of(address, words);
    Row {
        address,
        words,
        used,
        line,
    }
}

// As wide as a word and the space behind it.
const NO_WORD: &str = "       ";

impl fmt::Display for Row {
    fn fmt<W: fmt::Write>(&self, f: &mut fmt::Formatter<W>) -> fmt::Result {
        let address = self.address;
        write!(f, "{address:06o}  ")?;
        for (place, word) in self.words.iter().enumerate() {
            if place < self.used {
                write!(f, "{word:06o} ")?;
            } else {
                f.write_str(NO_WORD)?;
            }
        }
        let line = self.line;
        write!(f, " {line}")
    }
}
