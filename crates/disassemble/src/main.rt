// Lists the instructions of a board's image, one line each: address, words and instruction.
#![tactic(auto)]

mod faults;
mod rows;

use faults::Fault;
use image::{Image, image_of, next_address, parse_address, parse_count};
use rows::row_at;
use std::process::ExitCode;
use std::{env, fs};

// Where an image's program begins, unless an argument says otherwise.
const FIRST_ADDRESS: u16 = 0o1000;

// How many instructions are listed, unless an argument says otherwise.
const FEW_INSTRUCTIONS: u16 = 16;

// Which instructions are listed.
#[derive(Clone, Copy)]
struct Part {
    address: u16,
    count: u16,
}

// The part that the arguments name.
fn asked_part(rt: &HostRuntime) -> Result<Part, Fault> {
    let mut arguments = env::args(rt)?.skip(1);
    let address = arguments
        .next()
        .map_or(Ok(FIRST_ADDRESS), |text| parse_address(text.as_str()))?;
    let count = arguments
        .next()
        .map_or(Ok(FEW_INSTRUCTIONS), |text| parse_count(text.as_str()))?;
    if arguments.next().is_some() {
        return Err(Fault::Arguments);
    }
    Ok(Part { address, count })
}

// Prints a line for each instruction of the part.
fn print_part(rt: &HostRuntime, image: &Image, part: Part) -> Result<(), Fault> {
    let mut address = part.address;
    for _ in 0..part.count {
        let row = row_at(image, address);
        println!(rt; "{row}")?;
        address = next_address(address, row.used);
    }
    Ok(())
}

fn run(rt: &HostRuntime) -> Result<(), Fault> {
    let part = asked_part(rt)?;
    let bytes = fs::read(rt, "board.img").map_err(Fault::Unreadable)?;
    let image = image_of(bytes.as_slice()).map_err(|refusal| Fault::Refused(refusal, bytes.len()))?;
    print_part(rt, image, part)
}

fn main(rt: HostRuntime) -> ExitCode {
    match run(&rt) {
        Ok(()) => ExitCode::SUCCESS,
        Err(fault) => {
            let _ = eprintln!(rt; "disassemble: {fault}");
            ExitCode::FAILURE
        }
    }
}
