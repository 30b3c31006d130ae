// Runs the captures of data/ through the check, the feed and the recorder; what is printed is compared with stdout, which was
// worked out from the layout alone.
#![tactic(auto)]

mod recording;

use capture::block::{BLOCK, MOST_BLOCKS};
use capture::{Feed, Record, check};
use inspection::fields::{Fields, fields_of};
use inspection::{refused_block, refused_byte};
use std::{fs, io};

fn print_record(rt: &HostRuntime, record: Record) -> io::Result<()> {
    let Fields {
        kind,
        answered,
        address,
        word,
    } = fields_of(record);
    let kind = kind.number();
    let mark = u8::from(answered);
    print!(rt; "  {kind} {mark} {address:o} {word:o}")?;
    let added = record.added();
    if !added.is_empty() {
        print!(rt; " ")?;
    }
    for byte in added {
        print!(rt; "{byte:02x}")?;
    }
    println!(rt; "")
}

// One capture: the refusal with its number, block and byte, or its records.
fn run_case(rt: &HostRuntime, name: &str) -> io::Result<()> {
    let path = format!(in rt.alloc(); "{name}.cap")?;
    let file = fs::read(rt, path.as_str())?;
    let bytes = file.as_slice();
    let mut feed = Feed::empty();
    match feed.check(bytes) {
        Ok(()) => {
            let mut again = Feed::empty();
            let _ = again.check(bytes);
            let records = again.count();
            println!(rt; "{name}: {records} records")?;
            for record in feed {
                print_record(rt, record)?;
            }
            Ok(())
        }
        Err(refusal) => {
            let number = refusal.number();
            let left = feed.count();
            let block = refused_block(bytes);
            let start = (BLOCK * block).min(bytes.len());
            let byte = refused_byte(refusal, &bytes[start..]);
            println!(rt; "{name}: refused {number}, block {block}, byte {byte}, left {left}")
        }
    }
}

// Captures of zeros: block 1 has no number of its own, and past 4,096 blocks the length is asked first.
fn run_lengths(rt: &HostRuntime) -> io::Result<()> {
    for blocks in [1, 2, MOST_BLOCKS, MOST_BLOCKS + 1] {
        let zeros = vec![in rt.alloc(); 0u8; BLOCK * blocks]?;
        let answer = check(zeros.as_slice())
            .err()
            .map_or(0, |refusal| refusal.number());
        println!(rt; "{blocks} blocks of zeros: {answer}")?;
    }
    Ok(())
}

fn main(rt: HostRuntime) -> io::Result<()> {
    let names = fs::read_to_string(&rt, "cases.txt")?;
    for name in names.as_str().lines() {
        run_case(&rt, name)?;
    }
    run_lengths(&rt)?;
    recording::run_recordings(&rt)
}
