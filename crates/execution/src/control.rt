// The instructions with no operand: control words and flag words.
ghost use Rattle.std.specs.Prelude.{◌≡◌};
ghost use Rattle.operands.specs.State.{beside};
ghost use Rattle.operands.specs.Machines.{Ran};
ghost use Rattle.execution.specs.Executes.{resets, controls, reflagged};

use crate::ending::{Ending, Trap};
use crate::transfer::restore;
use arithmetic::{Flags, change_flags};
use bus::{Board, Cabinet, Gone, Request};
use isa::{Control, FlagChange, FlagMask};
use operands::{Life, Machine, Processor};

// RESET.
#[tactic(auto, unfolding(crate::specs::Executes::resets))]
fn reset<B: Board, C: Cabinet>(machine: &mut Machine<'_, B, C>) -> Result<Ending, Gone>
    ensures { Ran B.Board C.Cabinet resets machine.old (beside result machine.new.processor.now) machine.new }
{
    let _answered = machine.side.ask(Request::Init)?;
    machine.processor.requests.irq2 = false;
    machine.processor.requests.irq3 = false;
    Ok(Ending::Completed)
}

// The control words. A match and no table of functions: its cases are what a word does.
#[tactic(auto, unfolding(crate::specs::Executes::controls))]
pub(crate) fn control<B: Board, C: Cabinet>(
    machine: &mut Machine<'_, B, C>,
    word: Control,
) -> Result<Ending, Gone>
    ensures { Ran B.Board C.Cabinet (controls word) machine.old (beside result machine.new.processor.now) machine.new }
{
    match word {
        Control::Halt => {
            machine.processor.life = Life::Halted;
            Ok(Ending::Halted)
        }
        Control::Wait => {
            machine.processor.waiting = true;
            Ok(Ending::Completed)
        }
        Control::Rti => restore(machine, Ending::Completed),
        Control::Bpt => Ok(Ending::Trapped(Trap::Bpt)),
        Control::Iot => Ok(Ending::Trapped(Trap::Iot)),
        Control::Reset => reset(machine),
        Control::Rtt => restore(machine, Ending::ReturnedFromTrace),
    }
}

// The flag words 000240 to 000277.
pub(crate) fn reflag(p: &mut Processor, change: FlagChange, mask: FlagMask)
    ensures { p.new ≡ reflagged change mask p.old }
{
    p.psw = change_flags(change, mask, Flags::of_status(p.psw)).put_into(p.psw);
}
