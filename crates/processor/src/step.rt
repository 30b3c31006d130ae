// One step: lines are sampled, and the first that applies is done.
ghost use Rattle.std.specs.Prelude.{◌≡◌};
ghost use Rattle.operands.specs.State.{beside};
ghost use Rattle.operands.specs.Machines.{Ran};
ghost use Rattle.processor.specs.Stepping.{traced, concludes, advances, enters_asked, accepts, chooses, steps};

use crate::answer::Answer;
use crate::enter::{die, enter};
use crate::sample::{Accepted, accept_first, is_tracing, lines_in, sample};
use bus::{Board, Cabinet, Gone, Request};
use execution::{Ending, execute_on};
use isa::decode;
use operands::{Life, Machine, Processor};

// The vector that an access which timed out enters.
const TIME_OUT: u16 = 0o4;

fn mark_trace(p: &mut Processor)
    ensures { p.new ≡ traced p.old }
{
    p.trace = is_tracing(p.psw);
}

#[tactic(auto, unfolding(crate::specs::Stepping::concludes))]
fn conclude<B: Board, C: Cabinet>(
    machine: &mut Machine<'_, B, C>,
    ending: Ending,
) -> Result<Answer, Gone>
    ensures { Ran B.Board C.Cabinet (concludes ending) machine.old (beside result machine.new.processor.now) machine.new }
{
    match ending {
        Ending::Completed => {
            mark_trace(machine.processor);
            Ok(Answer::WentOn)
        }
        Ending::ReturnedFromTrace => Ok(Answer::WentOn),
        Ending::Halted => {
            mark_trace(machine.processor);
            Ok(Answer::Halted)
        }
        Ending::TimedOut => enter(machine, TIME_OUT),
        Ending::Trapped(trap) => enter(machine, trap as u16),
    }
}

#[tactic(auto, unfolding(crate::specs::Stepping::advances, crate::specs::Stepping::performs))]
fn advance<B: Board, C: Cabinet>(machine: &mut Machine<'_, B, C>) -> Result<Answer, Gone>
    ensures { Ran B.Board C.Cabinet advances machine.old (beside result machine.new.processor.now) machine.new }
{
    let Some(word) = machine.fetch()? else {
        return enter(machine, TIME_OUT);
    };
    let ending = execute_on(machine, decode(word))?;
    conclude(machine, ending)
}

#[tactic(auto, unfolding(crate::specs::Stepping::enters_asked))]
fn enter_asked<B: Board, C: Cabinet>(machine: &mut Machine<'_, B, C>) -> Result<Answer, Gone>
    ensures { Ran B.Board C.Cabinet enters_asked machine.old (beside result machine.new.processor.now) machine.new }
{
    let Some(word) = machine.side.ask(Request::Vector)? else {
        return Ok(die(machine.processor));
    };
    enter(machine, word / 4 * 4)
}

#[tactic(auto, unfolding(crate::specs::Stepping::accepts))]
fn accept<B: Board, C: Cabinet>(
    machine: &mut Machine<'_, B, C>,
    accepted: Accepted,
) -> Result<Answer, Gone>
    ensures { Ran B.Board C.Cabinet (accepts accepted) machine.old (beside result machine.new.processor.now) machine.new }
{
    // Each request has its own mark beside its own vector.
    let requests = &mut machine.processor.requests;
    match accepted {
        Accepted::Aclo => {
            requests.aclo = false;
            enter(machine, 0o24)
        }
        Accepted::Irq2 => {
            requests.irq2 = false;
            enter(machine, 0o100)
        }
        Accepted::Irq3 => {
            requests.irq3 = false;
            enter(machine, 0o270)
        }
        Accepted::Virq => enter_asked(machine),
    }
}

#[tactic(auto, unfolding(crate::specs::Stepping::chooses))]
fn choose<B: Board, C: Cabinet>(machine: &mut Machine<'_, B, C>) -> Result<Answer, Gone>
    ensures { Ran B.Board C.Cabinet chooses machine.old (beside result machine.new.processor.now) machine.new }
{
    // One match on all that decides, so that what comes before what is read off in one place.
    let p = &*machine.processor;
    match (p.life, p.trace, p.waiting, accept_first(p)) {
        (Life::Running, true, _, _) => enter(machine, 0o14),
        (Life::Running, false, _, Some(accepted)) => accept(machine, accepted),
        (Life::Running, false, true, None) => Ok(Answer::Waiting),
        (Life::Running, false, false, None) => advance(machine),
        (Life::Halted | Life::Dead | Life::Ended, _, _, _) => Ok(Answer::Idle),
    }
}

// One step, with no guard: where the side is gone the processor is left as it was then.
#[tactic(auto, unfolding(crate::specs::Stepping::steps))]
pub(crate) fn attempt<B: Board, C: Cabinet>(machine: &mut Machine<'_, B, C>) -> Result<Answer, Gone>
    ensures { Ran B.Board C.Cabinet steps machine.old (beside result machine.new.processor.now) machine.new }
{
    let reply = machine.side.ask(Request::Lines)?;
    sample(machine.processor, lines_in(reply));
    choose(machine)
}
