// Reads lines of an address and a listing, and prints the words of each, or the number of its refusal.
#![tactic(auto)]

use anyhow::Context;
use line_reader::read_back;

// The address at the front of a line, and the listing behind its space. `listing_table` takes its fields apart in the same
// two lines under another message: a library function for both, with its contract, would be longer than the two.
fn split(line: &str) -> anyhow::Result<(u16, &str)> {
    let (address, text) = line
        .split_once(' ')
        .context("a line is an address, a space and a listing")?;
    Ok((u16::from_str_radix(address, 8)?, text))
}

fn run(rt: &HostRuntime) -> anyhow::Result<()> {
    for line in rt.lines(rt.alloc()) {
        let line = line?;
        let (address, text) = split(line.as_str())?;
        let back = read_back(address, text.as_bytes());
        match back.refusal {
            None => {
                let [word, first, second] = back.words;
                println!(rt; "{word:06o} {first:06o} {second:06o}")?;
            }
            Some(refusal) => {
                let number = refusal.number();
                println!(rt; "X{number:02}")?;
            }
        }
    }
    Ok(())
}

fn main(rt: HostRuntime) -> anyhow::Result<()> {
    run(&rt)
}
