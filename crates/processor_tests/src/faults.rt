// Time-outs at every kind of access, death while entering, and a side that is gone.
use crate::machine::{START, go, place, put, shown};
use crate::side::Stuck;
use bus::CabinetBoard;
use operands::{Life, Processor};
use processor::Bench;

// On 4,096 bytes of RAM, all else silent, with a stuck side: the processor and the letter of the last step.
fn ended(
    side: Stuck,
    start: (u16, u16),
    program: &[u16],
    others: &[(u16, u16)],
    steps: u8,
) -> (Processor, char) {
    let mut ram = [0u8; 4_096];
    let rom = [0u8; 2];
    let mut bench = Bench::new();
    let Ok(sizes) = CabinetBoard::question(ram.len(), rom.len()) else {
        return (bench.processor, '?');
    };
    let mut board = CabinetBoard::over(&mut ram, &rom, sizes);
    let mut stuck = side;
    place(&mut board, program);
    put(&mut board, others);
    let last = go(&mut bench, &mut board, &mut stuck, start, steps);
    (bench.processor, last)
}

// A constant cannot call `default`.
const SILENT: Stuck = Stuck {
    virq: false,
    unplugged: false,
};

const UNPLUGGED: Stuck = Stuck {
    unplugged: true,
    ..SILENT
};

#[test]
fn time_outs_enter_4(rt: HostRuntime) {
    // fetching at 10000, where PC has risen already; a source there; a destination on the page that is read; ROM written
    let (p, last) = ended(SILENT, (0o10000, 0), &[], &[], 1);
    assert_eq!(rt; (shown(&p), last), ([0, 0, 0o774, 0o2004, 0], 'E'));
    let (p, last) = ended(SILENT, (START, 0), &[0o13700, 0o10000], &[], 1);
    assert_eq!(rt; (shown(&p), last), ([0, 0, 0o774, 0o2004, 0], 'E'));
    let (p, last) = ended(SILENT, (START, 0), &[0o5237, 0o177600], &[], 1);
    assert_eq!(rt; (shown(&p), last), ([0, 0, 0o774, 0o2004, 0], 'E'));
    // the flags are set before the write: MOV R0,@#100000 pushes PSW with Z, which MOV @#776,R1 shows
    let (p, last) = ended(
        SILENT,
        (START, 0),
        &[0o10037, 0o100000],
        &[(0o2004, 0o13701), (0o2006, 0o776)],
        2,
    );
    assert_eq!(rt; (shown(&p), last), ([0, 4, 0o774, 0o2010, 0], 'G'));
}

#[test]
fn time_outs_while_entering_kill(rt: HostRuntime) {
    // JSR with SP at 0: its push times out on the page at 177776, and so does the first of entering 4
    let (p, last) = ended(SILENT, (START, 0), &[0o5006, 0o4737, 0o3000], &[], 2);
    assert_eq!(rt; (shown(&p), last), ([0, 0, 0o177774, 0o1006, 4], 'D'));
    assert!(rt; p.life == Life::Dead);
    // the vector request times out
    let side = Stuck {
        virq: true,
        ..SILENT
    };
    let (p, last) = ended(side, (START, 0), &[0o240], &[], 1);
    assert_eq!(rt; (shown(&p), last), ([0, 0, 0o1000, 0o1000, 0], 'D'));
}

// The side is gone at a read, after R1 rose: the processor is as before the step, but for its life.
#[test]
fn losses_leave_the_processor(rt: HostRuntime) {
    let program = [0o12701, 0o177600, 0o12100];
    let (before, _) = ended(UNPLUGGED, (START, 0), &program, &[], 1);
    let (p, last) = ended(UNPLUGGED, (START, 0), &program, &[], 2);
    let ended = Processor {
        life: Life::Ended,
        ..before
    };
    assert_eq!(rt; last, 'X');
    assert!(rt; p == ended);
}
