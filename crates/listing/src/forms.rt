// The forms of a line: a mnemonic, and what stands behind it.
ghost use Rattle.std.specs.Prelude.{◌≡◌, ◌+◌, ◌≤◌, ◌++◌, length};
ghost use Rattle.listing.specs.Shown.{shown};
ghost use Rattle.listing.specs.Text.{behind};

use crate::pieces::Piece;
use crate::text_line::Line;

impl Line {
    // A mnemonic.
    pub(crate) fn named(name: &str) -> Line
        requires { length name.now ≤ 5 }
        ensures text { shown result ≡ name.now }
        ensures size { result.length ≡ length name.now }
    {
        let mut line = Line::empty();
        line.put(name);
        line
    }

    // The line with a piece at its end.
    pub(crate) fn with<P: Piece>(mut self, piece: P) -> Line
        requires { self.length + P.most ≤ 28 }
        ensures text { shown result ≡ shown self ++ P.text piece }
        ensures size { result.length ≤ self.length + P.most }
    {
        piece.put_on(&mut self);
        self
    }

    // The line with a space and a piece at its end.
    pub(crate) fn behind<P: Piece>(mut self, piece: P) -> Line
        requires { self.length + 1 + P.most ≤ 28 }
        ensures { shown result ≡ behind (shown self) (P.text piece) }
    {
        self.put(" ");
        self.with(piece)
    }
}
