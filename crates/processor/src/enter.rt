// Entering a vector: PSW and PC are pushed, and loaded anew.
ghost use Rattle.std.specs.Prelude.{◌≡◌};
ghost use Rattle.operands.specs.State.{beside, with_life};
ghost use Rattle.operands.specs.Machines.{Ran};
ghost use Rattle.operands.specs.declared.state.Life.TheVariants.{Dead};
ghost use Rattle.processor.specs.declared.answer.Answer.TheVariants.{Dead as Died};
ghost use Rattle.processor.specs.Entering.{unmarked, loads_pc, enters};

use crate::answer::Answer;
use bus::{Board, Cabinet, Gone, load};
use execution::push_on;
use isa::Register;
use operands::{Life, Machine, Processor};

// A time-out while entering is the end.
pub(crate) fn die(p: &mut Processor) -> Answer
    ensures answer { result ≡ Died }
    ensures left { p.new ≡ with_life p.old Dead }
{
    p.life = Life::Dead;
    Answer::Dead
}

fn clear_marks(p: &mut Processor)
    ensures { p.new ≡ unmarked p.old }
{
    p.trace = false;
    p.waiting = false;
}

// Loads PC from the vector, and PSW from the word after it.
#[tactic(auto, unfolding(crate::specs::Entering::loads_pc, crate::specs::Entering::loads_psw))]
fn load_anew<B: Board, C: Cabinet>(
    machine: &mut Machine<'_, B, C>,
    vector: u16,
) -> Result<Answer, Gone>
    ensures { Ran B.Board C.Cabinet (loads_pc vector) machine.old (beside result machine.new.processor.now) machine.new }
{
    let Some(pc) = load(machine.board, machine.side, vector)? else {
        return Ok(die(machine.processor));
    };
    machine.processor.set_register(Register::Pc, pc);
    let Some(psw) = load(machine.board, machine.side, vector.wrapping_add(2))? else {
        return Ok(die(machine.processor));
    };
    machine.processor.psw = psw;
    Ok(Answer::Entered)
}

// Enters a vector.
#[tactic(auto, unfolding(crate::specs::Entering::enters, crate::specs::Entering::pushes_pc))]
pub(crate) fn enter<B: Board, C: Cabinet>(
    machine: &mut Machine<'_, B, C>,
    vector: u16,
) -> Result<Answer, Gone>
    ensures { Ran B.Board C.Cabinet (enters vector) machine.old (beside result machine.new.processor.now) machine.new }
{
    clear_marks(machine.processor);
    let psw = machine.processor.psw;
    let Some(()) = push_on(machine, psw)? else {
        return Ok(die(machine.processor));
    };
    let pc = machine.processor.register(Register::Pc);
    let Some(()) = push_on(machine, pc)? else {
        return Ok(die(machine.processor));
    };
    load_anew(machine, vector)
}
