// Lists each row of a table, compares the listing with the text that the row expects, and reads that text back.
#![tactic(auto)]

use anyhow::Context;
use line_reader::read_back;
use listing::list;
use listing::lister::LONGEST_LINE;

// What a row of the table says. Three words are one plain value throughout; `used` says how many of them its text shows.
#[derive(Drop)]
struct Row<'a> {
    address: u16,
    words: [u16; 3],
    used: u16,
    text: &'a str,
}

// The next field of a line and what stands behind its space.
fn field(line: &str) -> anyhow::Result<(u16, &str)> {
    let (digits, rest) = line.split_once(' ').context("a field is missing")?;
    Ok((u16::from_str_radix(digits, 8)?, rest))
}

fn read_row(line: &str) -> anyhow::Result<Row<'_>> {
    let (address, line) = field(line)?;
    let (word, line) = field(line)?;
    let (first, line) = field(line)?;
    let (second, line) = field(line)?;
    let (used, text) = field(line)?;
    Ok(Row {
        address,
        words: [word, first, second],
        used,
        text,
    })
}

// Whether the row's words list to its text, and the bytes behind it stay.
fn lists(row: &Row<'_>) -> bool {
    let mut out = [b'~'; LONGEST_LINE];
    list(row.address, row.words, &mut out).is_ok_and(|listed| {
        out.split_at_checked(listed.length).is_some_and(|(text, rest)| {
            text == row.text.as_bytes()
                && listed.words == usize::from(row.used)
                && rest.iter().all(|byte| *byte == b'~')
        })
    })
}

// Whether the row's text reads back as the words that it uses, then zeros.
fn reads_back(row: &Row<'_>) -> bool {
    let back = read_back(row.address, row.text.as_bytes());
    let [word, first, second] = row.words;
    let shown = match row.used {
        0 | 1 => [word, 0, 0],
        2 => [word, first, 0],
        _ => [word, first, second],
    };
    back.refusal.is_none() && back.words == shown
}

// It counts in the loop that prints: a chain would have to carry both counts beside the faults of reading and printing.
fn run(rt: &HostRuntime) -> anyhow::Result<()> {
    let mut rows = 0u32;
    let mut wrong = 0u32;
    for line in rt.lines(rt.alloc()) {
        let line = line?;
        if line.as_str().starts_with('#') {
            continue;
        }
        rows = rows.saturating_add(1);
        let row = read_row(line.as_str())?;
        if !lists(&row) || !reads_back(&row) {
            wrong = wrong.saturating_add(1);
            println!(rt; "not so: {line}")?;
        }
    }
    println!(rt; "{rows} rows, {wrong} wrong")?;
    Ok(())
}

fn main(rt: HostRuntime) -> anyhow::Result<()> {
    run(&rt)
}
