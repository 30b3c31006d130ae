// Writing text at a line's end, and what stands in a line.
ghost use Rattle.std.specs.Prelude.{◌≡◌, ◌+◌, ◌≤◌, [], ◌++◌, length, drop, Some};
ghost use Rattle.listing.specs.Shown.{shown};

use crate::lister::LONGEST_LINE;
use crate::text_line::Line;
use std::fmt;

impl Line {
    pub(crate) fn empty() -> Line
        ensures text { shown result ≡ [] }
        ensures size { result.length ≡ 0 }
    {
        Line {
            bytes: [0; LONGEST_LINE],
            length: 0,
        }
    }

    // Bytes at the end. The room is asked for here and wherever more is put: what is put differs, so it is no invariant.
    pub(crate) fn put_bytes(&mut self, more: &[u8])
        requires { self.old.length + length more.now ≤ 28 }
        ensures text { shown self.new ≡ shown self.old ++ more.now }
        ensures size { self.new.length ≡ self.old.length + length more.now }
    {
        let end = self.length + more.len();
        self.bytes[self.length..end].copy_from_slice(more);
        self.length = end;
    }

    pub(crate) fn put(&mut self, more: &str)
        requires { self.old.length + length more.now ≤ 28 }
        ensures text { shown self.new ≡ shown self.old ++ more.now }
        ensures size { self.new.length ≡ self.old.length + length more.now }
    {
        self.put_bytes(more.as_bytes());
    }

    // Copies the line to the front of `out`, and answers its length: a library has no heap to give a text.
    pub(crate) fn copy_to(self, out: &mut [u8]) -> usize
        requires { 28 ≤ length out.old }
        ensures written { out.new ≡ shown self ++ drop (length (shown self)) out.old }
        ensures size { result ≡ length (shown self) }
    {
        let text = self.as_bytes();
        out[..text.len()].copy_from_slice(text);
        text.len()
    }

    // The text that stands in the line.
    pub fn as_bytes(&self) -> &[u8]
        ensures { result.now ≡ shown self.now }
    {
        &self.bytes[0..self.length]
    }
}

impl fmt::Display for Line {
    ghost output = { λ line. Some (shown line) };

    fn fmt<W: fmt::Write>(&self, f: &mut fmt::Formatter<W>) -> fmt::Result {
        let text = str::from_utf8(self.as_bytes()).map_err(|_| fmt::Error)?;
        f.write_str(text)
    }
}
