// The line of a record.
ghost use Rattle.std.specs.Prelude.{◌≡◌, ℕ, ◌<◌, ◌++◌, length, IfOk, string_bytes, OnOk, slice_index};
ghost use Rattle.capture.specs.Handed.{shown, added_of};
ghost use Rattle.inspection.specs.Texts.{bytes_text, added_text, line_text};

use crate::fields::{Fields, fields_of, hex, kind_text, mark_text, octal};
use capture::Record;
use std::alloc::{AllocError, Global};

// Adds ASCII bytes to a line. Digits go this way: by `{:06o}` and `{:02X}` a line took one and a half to four times as long.
fn push_ascii(line: &mut String, bytes: &[u8]) -> Result<(), AllocError>
    requires { (k : ℕ) → k < length bytes.now → slice_index bytes.now k < 128 }
    ensures { OnOk result (string_bytes line.new ≡ string_bytes line.old ++ bytes.now) }
{
    for byte in bytes {
        line.push(*byte as char)?;
    }
    Ok(())
}

// Adds a space and two digits for each byte.
fn push_bytes(line: &mut String, bytes: &[u8]) -> Result<(), AllocError>
    ensures { OnOk result (string_bytes line.new ≡ string_bytes line.old ++ bytes_text bytes.now) }
{
    for byte in bytes {
        push_ascii(line, &hex(*byte))?;
    }
    Ok(())
}

// Adds what a record's header adds, where that is anything.
fn push_added(line: &mut String, added: &[u8]) -> Result<(), AllocError>
    ensures { OnOk result (string_bytes line.new ≡ string_bytes line.old ++ added_text added.now) }
{
    if added.is_empty() {
        return Ok(());
    }
    line.push_str(", added")?;
    push_bytes(line, added)?;
    Ok(())
}

// Number, kind, mark, address, word and added bytes of a record.
pub fn record_line(heap: Global, number: usize, rec: Record) -> Result<String, AllocError>
    ensures { IfOk result (λ s. string_bytes s ≡ line_text number (shown rec.entry) (added_of rec.entry)) }
{
    let Fields {
        kind,
        answered,
        address,
        word,
    } = fields_of(rec);
    let kind = kind_text(kind.number());
    let mark = mark_text(answered);
    let mut line = format!(in heap; "{number}: {kind}, {mark}, address ")?;
    push_ascii(&mut line, &octal(address))?;
    line.push_str(", word ")?;
    push_ascii(&mut line, &octal(word))?;
    push_added(&mut line, rec.added())?;
    Ok(line)
}
