// Listing an instruction into the caller's bytes.
ghost use Rattle.std.specs.Prelude.{◌≡◌, ◌≤◌, length};
ghost use Rattle.listing.specs.Listing.{text, listing, numbered, numbers, output};
ghost use Rattle.listing.specs.Shown.{shown};

use crate::instructions::instruction_line;
use crate::refusal::Refusal;
use crate::text_line::Line;
use isa::decode;

// The fewest bytes that the output of a listing has.
pub const LONGEST_LINE: usize = 28;

// How many bytes a listing wrote, and how many of the three words it shows.
#[derive(Clone, Copy)]
pub struct Listed {
    pub length: usize,
    pub words: usize,
}

// The line of the instruction that three words begin with, at an address.
pub fn line_of(address: u16, words: [u16; 3]) -> Line
    ensures written { shown result ≡ text address words }
    ensures fits { length (text address words) ≤ 28 }
{
    instruction_line(address, words, decode(words[0]))
}

// Writes the listing of the instruction word and its index words, `words`, at the front of `out`. Address, words by value and
// bytes of the caller are what a C host can pass.
pub fn list(address: u16, words: [u16; 3], out: &mut [u8]) -> Result<Listed, Refusal>
    ensures answer { result ≡ listing address words out.old }
    ensures in_numbers { numbered result ≡ numbers address words out.old }
    ensures written { out.new ≡ output address words out.old }
    ensures fits { length (text address words) ≤ 28 }
{
    let line = line_of(address, words);
    if out.len() < LONGEST_LINE {
        return Err(Refusal::ShortOutput);
    }
    let length = line.copy_to(out);
    let words = 1 + usize::from(decode(words[0]).further_words());
    Ok(Listed { length, words })
}
