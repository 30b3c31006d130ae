// Reading a line back: the words that it is the listing of.
ghost use Rattle.std.specs.Prelude.{◌≡◌, ℕ, ◌≤◌, List, take, Decides};
ghost use Rattle.listing.specs.Listing.{text};
ghost use Rattle.line_reader.specs.Back.{Words, Found, Answers, read_as};

use crate::candidates::candidate_in;
use listing::lister::{LONGEST_LINE, line_of};
use listing::{Refusal, list};

// The words that a line shows, then zeros; beside a refusal all are zero. The words are a plain value and the refusal stands
// beside them: a form that the project fixes.
#[derive(Clone, Copy)]
pub struct ReadBack {
    pub words: [u16; 3],
    pub refusal: Option<Refusal>,
}

// Whether a line is the listing of words at an address.
fn is_listing(address: u16, words: [u16; 3], line: &[u8]) -> bool
    ensures { Decides result (text address words ≡ line.now) }
{
    line_of(address, words).as_bytes() == line
}

// The words that a line is the listing of, if there are any.
fn words_in(address: u16, line: &[u8]) -> Option<[u16; 3]>
    ensures { Found address line.now result }
{
    let words = candidate_in(address, line);
    is_listing(address, words, line).then_some(words)
}

// Reads a line that is the listing of some words at `address`; any other is refused.
pub fn read_back(address: u16, line: &[u8]) -> ReadBack
    ensures answers { Answers address line.now result.words result.refusal }
    ensures finds { (words : List ℕ) → Words words → text address words ≡ line.now → result ≡ read_as words }
{
    match words_in(address, line) {
        Some(words) => ReadBack {
            words,
            refusal: None,
        },
        None => ReadBack {
            words: [0; 3],
            refusal: Some(Refusal::NoListing),
        },
    }
}

// Lists words into `out`, and answers the length of the text.
fn listed_length(address: u16, words: [u16; 3], out: &mut [u8; LONGEST_LINE]) -> usize
    ensures written { take result out.new ≡ text address words }
    ensures fits { result ≤ 28 }
{
    list(address, words, out).map_or(0, |listed| listed.length)
}

// Lists words and reads the listing back: it gives the words that were used, then zeros. The law is of `list` itself, so the
// buffer that it fills stands here with the length that it answers.
pub fn list_and_read_back(address: u16, words: [u16; 3]) -> ReadBack
    ensures { result ≡ read_as words }
{
    let mut out = [0; LONGEST_LINE];
    let length = listed_length(address, words, &mut out);
    read_back(address, &out[..length])
}
