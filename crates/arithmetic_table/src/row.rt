// A row of the table: an operation, its operands, and what it must leave.
ghost use Rattle.std.specs.Prelude.{◌≤◌};

use crate::name::Operation;
use arithmetic::{Flags, Outcome};
use isa::FlagChange;

// The flags stand as the number that they are in the low bits of a status word.
#[derive(Clone, Copy)]
pub struct Row {
    operation: Operation,
    source: u16,
    destination: u16,
    old: u16,
    result: Option<u16>,
    flags: u16,
}

// A field in digits of a base.
fn number(field: &str, base: u32) -> Option<u16>
    requires least { 2 ≤ base }
    requires most { base ≤ 36 }
{
    u16::from_str_radix(field, base).ok()
}

fn change_of(word: u16) -> FlagChange {
    if word >= FlagChange::Set as u16 {
        FlagChange::Set
    } else {
        FlagChange::Clear
    }
}

// A result that comes with no flags of its own.
fn plain(value: u16, flags: Flags) -> Outcome {
    Outcome {
        value: Some(value),
        flags,
    }
}

impl Row {
    // The row that a line is, its result in octal or `none`. No FromStr, here or for names: nothing asks why a line is no row.
    pub(crate) fn parse(line: &str) -> Option<Row> {
        let mut fields = line.split_whitespace();
        let operation = Operation::named(fields.next()?)?;
        let source = number(fields.next()?, 8)?;
        let destination = number(fields.next()?, 8)?;
        let old = number(fields.next()?, 2)?;
        let result = match fields.next()? {
            "none" => None,
            field => Some(number(field, 8)?),
        };
        let flags = number(fields.next()?, 2)?;
        Some(Row {
            operation,
            source,
            destination,
            old,
            result,
            flags,
        })
    }

    // What the library makes of the operands.
    fn answer(self) -> Outcome {
        let old = Flags::of_status(self.old);
        match self.operation {
            Operation::Single(operation, size) => arithmetic::single(
                operation,
                size,
                self.destination,
                old,
            ),
            Operation::Double(operation, size) => {
                arithmetic::double(operation, size, self.source, self.destination, old)
            }
            Operation::Add => arithmetic::add(self.source, self.destination),
            Operation::Subtract => arithmetic::subtract(self.source, self.destination),
            Operation::ExclusiveOr => arithmetic::exclusive_or(self.source, self.destination, old),
            Operation::SwapBytes => arithmetic::swap_bytes(self.destination),
            Operation::SignExtend => arithmetic::sign_extend(old),
            Operation::FromStatus => arithmetic::from_status(self.source),
            Operation::ToStatus => {
                let status = arithmetic::to_status(self.source, self.destination);
                plain(status, Flags::of_status(status))
            }
            Operation::PutFlags => plain(old.put_into(self.source), old),
            Operation::ChangeFlags => Outcome {
                value: None,
                flags: arithmetic::change_flags(
                    change_of(self.source),
                    Flags::of_status(self.source),
                    old,
                ),
            },
            Operation::Branch(condition) => {
                plain(u16::from(arithmetic::taken(condition, old)), old)
            }
            Operation::Spread => plain(arithmetic::sign_spread(self.source), old),
            Operation::Distance => {
                let [offset, _] = self.source.to_le_bytes();
                plain(arithmetic::branch_distance(offset.cast_signed()), old)
            }
        }
    }

    // Whether the library leaves what the row says.
    pub(crate) fn agrees(self) -> bool {
        let outcome = self.answer();
        outcome.value == self.result && outcome.flags.put_into(0) == self.flags
    }
}
