// The pieces of a line: names, numbers, operands, and two of these about a comma.
ghost use Rattle.std.specs.Prelude.{◌≡◌, ℕ, ◌+◌, ◌≤◌, ◌++◌, List, length};
ghost use Rattle.listing.specs.Shown.{shown};
ghost use Rattle.listing.specs.Text.{octal, operand_text, pair};
ghost use Rattle.listing.specs.Names.{register_name};

use crate::names::Named;
use crate::numbers::octal;
use crate::text_line::Line;
use isa::{Operand, Register};

pub(crate) trait Piece {
    ghost text: { Self → List ℕ };

    // The most characters that its text has.
    ghost most: { ℕ };

    // Writes the text at a line's end.
    fn put_on(self, line: &mut Line)
        requires { line.old.length + most ≤ 28 }
        ensures text { shown line.new ≡ shown line.old ++ text self }
        ensures size { line.new.length ≤ line.old.length + most };
}

impl<N: Named> Piece for N {
    ghost text = { N.name };

    ghost most = { N.longest };

    fn put_on(self, line: &mut Line) {
        line.put(self.name());
    }
}

// A number, in octal.
impl Piece for u16 {
    ghost text = { octal };

    ghost most = { 6 };

    fn put_on(self, line: &mut Line) {
        line.put_bytes(&octal(self));
    }
}

// Two pieces, and a comma between them.
pub(crate) struct Pair<A, B>(pub A, pub B);

impl<A: Piece, B: Piece> Piece for Pair<A, B> {
    ghost text = { λ both. pair (A.text both.0) (B.text both.1) };

    ghost most = { A.most + 1 + B.most };

    fn put_on(self, line: &mut Line) {
        let Pair(left, right) = self;
        left.put_on(line);
        line.put(",");
        right.put_on(line);
    }
}

// A register between two signs.
fn put_around(line: &mut Line, before: &str, register: Register, after: &str)
    requires { line.old.length + length before.now + 2 + length after.now ≤ 28 }
    ensures text { shown line.new ≡ shown line.old ++ (before.now ++ (register_name register ++ after.now)) }
    ensures size { line.new.length ≤ line.old.length + length before.now + 2 + length after.now }
{
    line.put(before);
    line.put(register.name());
    line.put(after);
}

// An operand, with the index word that it may take.
impl Piece for (Operand, u16) {
    ghost text = { λ both. operand_text both.0 both.1 };

    ghost most = { 11 };

    fn put_on(self, line: &mut Line) {
        let (operand, next) = self;
        match operand {
            Operand::Direct(register) => line.put(register.name()),
            Operand::Deferred(register) => put_around(line, "(", register, ")"),
            Operand::Increment(Register::Pc) => {
                line.put("#");
                next.put_on(line);
            }
            Operand::Increment(register) => put_around(line, "(", register, ")+"),
            Operand::IncrementDeferred(Register::Pc) => {
                line.put("@#");
                next.put_on(line);
            }
            Operand::IncrementDeferred(register) => put_around(line, "@(", register, ")+"),
            Operand::Decrement(register) => put_around(line, "-(", register, ")"),
            Operand::DecrementDeferred(register) => put_around(line, "@-(", register, ")"),
            Operand::Index(register) => {
                next.put_on(line);
                put_around(line, "(", register, ")");
            }
            Operand::IndexDeferred(register) => {
                line.put("@");
                next.put_on(line);
                put_around(line, "(", register, ")");
            }
        }
    }
}
