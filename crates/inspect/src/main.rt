// Lists the records of capture.cap, or says why and where it is no capture.
#![tactic(auto)]

use capture::block::BLOCK;
use capture::{Feed, Refusal};
use inspection::{Totals, record_line, refused_block, refused_byte};
use std::alloc::Global;
use std::process::ExitCode;
use std::{fs, io};

const NAME: &str = "capture.cap";

// The refusal, and the block and byte that it speaks of.
fn print_refusal(rt: &HostRuntime, refusal: Refusal, bytes: &[u8]) -> io::Result<()> {
    let number = refusal.number();
    let block = refused_block(bytes);
    match bytes.get(BLOCK * block..) {
        Some(rest) if refusal != Refusal::Blocks => {
            let byte = refused_byte(refusal, rest);
            println!(rt; "refused {number}, block {block}, byte {byte}: {refusal}")
        }
        _ => println!(rt; "refused {number}: {refusal}"),
    }
}

fn print_totals(rt: &HostRuntime, records: usize, totals: Totals) -> io::Result<()> {
    let Totals {
        reads,
        writes,
        byte_writes,
        lines,
        vectors,
        inits,
        timed_out,
    } = totals;
    println!(rt; "records: {records}, timed out: {timed_out}")?;
    println!(rt; "word read: {reads}, word write: {writes}, byte write: {byte_writes}")?;
    println!(rt; "lines: {lines}, vector: {vectors}, INIT: {inits}")
}

// Prints a line for each record that is left, and then the totals.
fn print_records(rt: &HostRuntime, heap: Global, feed: &mut Feed) -> io::Result<()> {
    let mut totals = Totals::default();
    for (number, record) in (1..).zip(feed.by_ref()) {
        totals.count(record);
        let line = record_line(heap, number, record)?;
        rt.println(line.as_str())?;
    }
    print_totals(rt, feed.used(), totals)
}

fn inspect(rt: &HostRuntime, bytes: &[u8]) -> io::Result<()> {
    let mut feed = Feed::empty();
    match feed.check(bytes) {
        Ok(()) => print_records(rt, rt.alloc(), &mut feed),
        Err(refusal) => print_refusal(rt, refusal, bytes),
    }
}

fn main(rt: HostRuntime) -> io::Result<ExitCode> {
    match fs::read(&rt, NAME) {
        Ok(bytes) => {
            inspect(&rt, bytes.as_slice())?;
            Ok(ExitCode::SUCCESS)
        }
        Err(error) => {
            eprintln!(rt; "inspect: cannot read {NAME}: {error}")?;
            Ok(ExitCode::FAILURE)
        }
    }
}
