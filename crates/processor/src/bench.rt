// A restart or a step behind its guard: where the cabinet side is gone, the processor is as before, with life ended.
ghost use Rattle.std.specs.Prelude.{◌≡◌};
ghost use Rattle.bus.specs.Courses.{Played};
ghost use Rattle.operands.specs.Machines.{Ran};
ghost use Rattle.operands.specs.State.{beside, with_life};
ghost use Rattle.operands.specs.declared.state.Life.TheVariants.{Ended};
ghost use Rattle.processor.specs.Jobs.{cleared, new, restarts, courses, Carried, Performed};

use crate::answer::Answer;
use crate::step::attempt;
use bus::{Board, Cabinet, Gone, Request};
use operands::{Life, Machine, Processor};

// What a processor is asked to do: to start anew with this PC and PSW, or to make a step. A value and no closure, since calls
// and laws speak of it, and no `Option` of the two words, since a step is no missing restart. PC and PSW are two numbers, and no thing of their own.
#[derive(Clone, Copy)]
pub enum Job {
    Restart(u16, u16),
    Step,
}

// A processor, and its state before the current job.
#[derive(Clone, Copy, Default)]
pub struct Bench {
    pub processor: Processor,
    pub saved: Processor,
}

fn cleared_processor(pc: u16, psw: u16) -> Processor
    ensures { result ≡ cleared pc psw }
{
    Processor {
        registers: [0, 0, 0, 0, 0, 0, 0, pc],
        psw,
        life: Life::Running,
        ..Processor::default()
    }
}

impl Bench {
    // A new processor is halted, and all zero.
    pub fn new() -> Bench
        ensures processor { result.processor ≡ new }
        ensures saved { result.saved ≡ new }
    {
        Bench::default()
    }
}

// Restores the processor as it is dropped, with life ended, unless it is settled first.
struct Guard<'a>(&'a mut Bench);

impl Drop for Guard<'_> {
    fn drop(self)
        ensures restored { self.exit.0.now.processor ≡ with_life self.entry.0.now.saved Ended }
        ensures saved { self.exit.0.now.saved ≡ self.entry.0.now.saved }
    {
        self.0.processor = self.0.saved;
        self.0.processor.life = Life::Ended;
        let Guard(_) = self;
    }
}

impl Guard<'_> {
    // Lets the processor stand as it is.
    fn settle(self)
        ensures { self.exit.0.now ≡ self.entry.0.now }
    {
        let Guard(_) = self;
    }
}

#[tactic(auto, unfolding(crate::specs::Jobs::restarts))]
fn restart<B: Board, C: Cabinet>(
    machine: &mut Machine<'_, B, C>,
    pc: u16,
    psw: u16,
) -> Result<Answer, Gone>
    ensures { Ran B.Board C.Cabinet (λ p. restarts pc psw) machine.old (beside result machine.new.processor.now) machine.new }
{
    let _answered = machine.side.ask(Request::Init)?;
    *machine.processor = cleared_processor(pc, psw);
    Ok(Answer::WentOn)
}

// The machine is made here: one made in `perform`, over the guard's loan, is not covered by the borrow check.
fn work<B: Board, C: Cabinet>(
    p: &mut Processor,
    board: &mut B,
    side: &mut C,
    job: Job,
) -> Result<Answer, Gone>
    ensures { Played C.meaning C.becomes (courses job p.old) (B.meaning board.old) side.old (beside result p.new) (B.meaning board.new) side.new }
{
    let mut machine = Machine {
        processor: p,
        board,
        side,
    };
    match job {
        Job::Restart(pc, psw) => restart(&mut machine, pc, psw),
        Job::Step => attempt(&mut machine),
    }
}

// Does a job over any board and any side.
pub fn perform<B: Board, C: Cabinet>(
    bench: &mut Bench,
    board: &mut B,
    side: &mut C,
    job: Job,
) -> Result<Answer, Gone>
    ensures carried { Carried C.meaning C.becomes job bench.old.processor (B.meaning board.old) side.old result bench.new.processor (B.meaning board.new) side.new }
    ensures performed { Performed C.meaning C.becomes job bench.old.processor (B.meaning board.old) side.old result bench.new.processor (B.meaning board.new) side.new }
    ensures saved { bench.new.saved ≡ bench.old.processor }
{
    bench.saved = bench.processor;
    let guard = Guard(bench);
    let answer = work(&mut guard.0.processor, board, side, job)?;
    guard.settle();
    Ok(answer)
}
