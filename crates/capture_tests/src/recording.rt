// A recorder is filled, its bytes are compared with a file, and a feed over them is asked the same again.
use bus::{Exchange, Request};
use capture::Feed;
use capture::block::BLOCK;
use recorder::{NotNoted, Recorder};
use std::{fs, io};

// The rig's number that header length 6 adds.
const NUMBER: u16 = 0x1234;

// The i-th exchange of the recordings, i below 65,536: kinds in turn, every fourth timed out where it may.
fn exchange(i: u16) -> Exchange {
    let address = 0o177600 + 2 * (i % 64);
    let word = i.wrapping_mul(257);
    let answered = i % 4 != 3;
    let (request, reply) = match i % 6 {
        0 => (Request::Init, Some(0)),
        1 => (Request::Lines, Some(i % 16)),
        2 => (Request::Read(address), answered.then_some(word)),
        3 => (Request::Write(address, word), answered.then_some(0)),
        4 => (
            Request::WriteByte(address + 1, (word % 256) as u8),
            answered.then_some(0),
        ),
        _ => (Request::Vector, answered.then_some(word)),
    };
    Exchange { request, reply }
}

// Notes exchanges until one is refused: how many were noted.
fn fill(recorder: &mut Recorder) -> u16 {
    (0..1000)
        .find(|i| recorder.note(exchange(*i)).is_err())
        .unwrap_or(1000)
}

// Asks for the exchanges in turn: how many were answered as they were noted.
fn ask_again(feed: &mut Feed) -> u16 {
    (0..1000)
        .find(|i| {
            let Exchange { request, reply } = exchange(*i);
            feed.ask(request) != Ok(reply)
        })
        .unwrap_or(1000)
}

fn run_recording(rt: &HostRuntime, blocks: u8, header: u8, file: &str) -> io::Result<()> {
    let mut buffer = vec![in rt.alloc(); 0xffu8; BLOCK * blocks as usize]?;
    let mut recorder = Recorder::open(buffer.as_mut_slice(), header, NUMBER);
    let free = recorder.place();
    let odd = Exchange {
        request: Request::Read(0o177601),
        reply: Some(0),
    };
    let unlawful = if recorder.note(odd) == Err(NotNoted::Unlawful) {
        "refused"
    } else {
        "noted"
    };
    let noted = fill(&mut recorder);
    let count = recorder.count();
    let place = recorder.place();
    let bytes = recorder.close();
    let expected = fs::read(rt, file)?;
    let same = if bytes == expected.as_slice() {
        "the same"
    } else {
        "others"
    };
    println!(rt;
        "header {header}, {blocks} blocks: place {free}, odd read {unlawful}, noted {noted}, count {count}, place {place}, bytes {same}"
    )?;
    let mut feed = Feed::empty();
    let checked = feed.check(bytes).is_ok();
    let gone = feed.ask(Request::Vector).is_err();
    let answered = ask_again(&mut feed);
    let used = feed.used();
    println!(rt;
        "  checked {checked}, another request gone {gone}, answered {answered}, used {used}"
    )
}

fn run_questions(rt: &HostRuntime) -> io::Result<()> {
    for (size, header) in [
        (0, 4),
        (511, 4),
        (513, 6),
        (512, 5),
        (100, 5),
        (512, 4),
        (2097152, 6),
        (2097664, 6),
        (2097664, 7),
    ] {
        let answer = Recorder::question(size, header)
            .err()
            .map_or(0, |refusal| refusal.number());
        println!(rt; "opening over {size} bytes with header {header}: {answer}")?;
    }
    Ok(())
}

pub(crate) fn run_recordings(rt: &HostRuntime) -> io::Result<()> {
    run_questions(rt)?;
    run_recording(rt, 1, 4, "recorded_1_4.cap")?;
    run_recording(rt, 2, 4, "recorded_2_4.cap")?;
    run_recording(rt, 3, 6, "recorded_3_6.cap")
}
