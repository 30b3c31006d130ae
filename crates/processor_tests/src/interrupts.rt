// The request lines: which is entered when.
use crate::machine::{QUIET, START, go, place, put, shown, step};
use bus::{FlatBoard, LineBits, Panel};
use processor::Bench;

const ALL: LineBits = LineBits {
    aclo: true,
    irq2: true,
    irq3: true,
    virq: true,
};

const IRQ2: LineBits = LineBits {
    irq2: true,
    ..QUIET
};

const IRQ3: LineBits = LineBits {
    irq3: true,
    ..QUIET
};

const VIRQ: LineBits = LineBits {
    virq: true,
    ..QUIET
};

// Sets the lines and makes a step: PC after it.
fn after(bench: &mut Bench, board: &mut FlatBoard<'_>, panel: &mut Panel, lines: LineBits) -> u16 {
    panel.set([0; 64], lines, 0o63);
    let _ = step(bench, board, panel);
    shown(&bench.processor)[3]
}

// The lines in turn, one step each after `first` steps with quiet lines: PC after each.
fn entered(program: &[u16], psw: u16, first: u8, lines: [LineBits; 4]) -> [u16; 4] {
    let mut bytes = [0u8; 65_536];
    let Ok(size) = FlatBoard::question(bytes.len()) else {
        return [0; 4];
    };
    let mut board = FlatBoard::over(&mut bytes, size);
    let mut panel = Panel::new([0; 64], QUIET, 0o63);
    let mut bench = Bench::new();
    place(&mut board, program);
    put(&mut board, &[(0o2100, 0o240), (0o2102, 0o240)]);
    let _ = go(&mut bench, &mut board, &mut panel, (START, psw), first);
    lines.map(|lines| after(&mut bench, &mut board, &mut panel, lines))
}

// All four at once: ACLO, IRQ2, IRQ3, then VIRQ by its vector, low bits cleared.
#[test]
fn in_their_order(rt: HostRuntime) {
    assert_eq!(rt;
        entered(&[0o240], 0, 0, [ALL, ALL, ALL, ALL]),
        [0o2024, 0o2100, 0o2270, 0o2060]
    );
}

// With P set only ACLO is entered; its vector's PSW lets the others in afterwards.
#[test]
fn kept_out_by_p(rt: HostRuntime) {
    assert_eq!(rt;
        entered(
            &[0o240, 0o240, 0o240, 0o240],
            0o200,
            0,
            [IRQ2, IRQ3, ALL, QUIET],
        ),
        [0o1002, 0o1004, 0o2024, 0o2100]
    );
}

// IRQ2 is entered once while it stays active, and again after it was quiet; at 2100 stand two NOPs.
#[test]
fn by_their_edges(rt: HostRuntime) {
    assert_eq!(rt;
        entered(&[0o240], 0, 0, [IRQ2, IRQ2, QUIET, IRQ2]),
        [0o2100, 0o2102, 0o2104, 0o2100]
    );
}

// WAIT, then waiting on with PC past it, and woken by IRQ3; at 2270 stands HALT, after which nothing goes on.
#[test]
fn wake_from_waiting(rt: HostRuntime) {
    assert_eq!(rt;
        entered(&[1, 0o240], 0, 1, [QUIET, IRQ3, QUIET, QUIET]),
        [0o1002, 0o2270, 0o2272, 0o2272]
    );
}

// RESET drops the requests of IRQ2 and IRQ3: MTPS #0 then lets none in.
#[test]
fn dropped_by_reset(rt: HostRuntime) {
    assert_eq!(rt;
        entered(
            &[0o240, 5, 0o106427, 0, 0o240],
            0o200,
            0,
            [IRQ2, QUIET, QUIET, QUIET],
        ),
        [0o1002, 0o1004, 0o1010, 0o1012]
    );
}

// VIRQ counts while it is active: it is entered again and again, and forgotten where P kept it out; at 2060 stands HALT.
#[test]
fn virq_by_its_level(rt: HostRuntime) {
    assert_eq!(rt;
        entered(&[0o240], 0, 0, [QUIET, VIRQ, VIRQ, QUIET]),
        [0o1002, 0o2060, 0o2060, 0o2062]
    );
    assert_eq!(rt;
        entered(
            &[0o240, 0o240, 0o106427, 0, 0o240],
            0o200,
            0,
            [VIRQ, VIRQ, QUIET, QUIET],
        ),
        [0o1002, 0o1004, 0o1010, 0o1012]
    );
}
