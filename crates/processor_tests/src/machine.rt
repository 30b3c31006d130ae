// What the tests run programs on, and how they look at the end.
use bus::{Board, Cabinet, FlatBoard, Gone, LineBits, Panel};
use isa::Register;
use operands::Processor;
use processor::{Answer, Bench, Job, perform};

// Programs start here, with SP just below them.
pub(crate) const START: u16 = 0o1000;

// No line is active; a constant cannot call `default`.
pub(crate) const QUIET: LineBits = LineBits {
    aclo: false,
    irq2: false,
    irq3: false,
    virq: false,
};

// The vectors, which lead to 2000 and their own number, with PSW 0.
const VECTORS: [u16; 10] = [0o4, 0o10, 0o14, 0o20, 0o24, 0o30, 0o34, 0o60, 0o100, 0o270];

// One letter an answer, so that a test's row fits its line: G went on, E entered a vector, W waiting, H halted, D dead,
// I idle, X the side was gone.
pub(crate) fn letter(answer: Result<Answer, Gone>) -> char {
    match answer {
        Ok(Answer::WentOn) => 'G',
        Ok(Answer::Entered) => 'E',
        Ok(Answer::Waiting) => 'W',
        Ok(Answer::Halted) => 'H',
        Ok(Answer::Dead) => 'D',
        Ok(Answer::Idle) => 'I',
        Err(Gone) => 'X',
    }
}

// Writes words at their addresses.
pub(crate) fn put<B: Board>(board: &mut B, words: &[(u16, u16)]) {
    for (at, word) in words {
        let _ = board.write(*at, *word);
    }
}

// Writes a program at its place.
pub(crate) fn place<B: Board>(board: &mut B, program: &[u16]) {
    for (at, word) in (START..).step_by(2).zip(program) {
        let _ = board.write(at, *word);
    }
}

// One step. Bench, board and side are lent to each call, as `perform` takes them.
pub(crate) fn step<B: Board, C: Cabinet>(bench: &mut Bench, board: &mut B, side: &mut C) -> char {
    letter(perform(bench, board, side, Job::Step))
}

// Restarts at `pc`, sets SP, and says how so many steps end, the last of them.
pub(crate) fn go<B: Board, C: Cabinet>(
    bench: &mut Bench,
    board: &mut B,
    side: &mut C,
    start: (u16, u16),
    steps: u8,
) -> char {
    put(board, &VECTORS.map(|vector| (vector, 0o2000 | vector)));
    let mut last = letter(perform(bench, board, side, Job::Restart(start.0, start.1)));
    bench.processor.set_register(Register::Sp, START);
    for _ in 0..steps {
        last = step(bench, board, side);
    }
    last
}

// R0, R1, SP, PC and PSW.
pub(crate) fn shown(p: &Processor) -> [u16; 5] {
    [
        p.register(Register::R0),
        p.register(Register::R1),
        p.register(Register::Sp),
        p.register(Register::Pc),
        p.psw,
    ]
}

// A program, and other words, on a flat board with a quiet panel: what is shown after so many steps from this PSW.
pub(crate) fn ran(program: &[u16], others: &[(u16, u16)], psw: u16, steps: u8) -> ([u16; 5], char) {
    let mut bytes = [0u8; 65_536];
    let Ok(size) = FlatBoard::question(bytes.len()) else {
        return ([0; 5], '?');
    };
    let mut board = FlatBoard::over(&mut bytes, size);
    let mut panel = Panel::new([0; 64], QUIET, 0);
    let mut bench = Bench::new();
    place(&mut board, program);
    put(&mut board, others);
    let last = go(&mut bench, &mut board, &mut panel, (START, psw), steps);
    (shown(&bench.processor), last)
}
