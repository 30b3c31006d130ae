// Looking at the characters of a line; past its end there are none.
ghost use Rattle.std.specs.Prelude.{◌≡◌, drop, slice_index};
ghost use Rattle.line_reader.specs.Fields.{behind_name};

// The character at an index, or NUL past the end: a plain value, to be matched against char literals.
pub(crate) fn look(line: &[u8], index: usize) -> char
    ensures { result ≡ slice_index line.now index }
{
    line.get(index).map_or('\0', |byte| char::from(*byte))
}

// What stands behind the first `count` characters.
pub(crate) fn skip(line: &[u8], count: usize) -> &[u8]
    ensures { result.now ≡ drop count line.now }
{
    line.get(count..).unwrap_or(&[])
}

// What stands behind the space after a name of two to five characters.
pub(crate) fn behind_name(line: &[u8]) -> &[u8]
    ensures { result.now ≡ behind_name line.now }
{
    match (look(line, 2), look(line, 3), look(line, 4)) {
        (' ', _, _) => skip(line, 3),
        (_, ' ', _) => skip(line, 4),
        (_, _, ' ') => skip(line, 5),
        _ => skip(line, 6),
    }
}
