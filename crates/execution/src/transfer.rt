// Instructions that set PC: branches, jumps, calls and returns.
ghost use Rattle.std.specs.Prelude.{◌≡◌};
ghost use Rattle.operands.specs.State.{beside};
ghost use Rattle.operands.specs.Machines.{Ran};
ghost use Rattle.execution.specs.Transfers.{branched, looped, jumps, calls, pops_into, leaves, marks, restores};

use crate::ending::{Ending, Trap};
use crate::stack::{pop, push_on, with_lowered_stack};
use arithmetic::{Flags, branch_distance, taken};
use bus::{Board, Cabinet, Gone};
use isa::{Condition, Operand, Register, Size};
use operands::{Location, Machine, Processor};

pub(crate) fn branch(p: &mut Processor, condition: Condition, offset: i8)
    ensures { p.new ≡ branched condition offset p.old }
{
    if taken(condition, Flags::of_status(p.psw)) {
        p.set_register(
            Register::Pc,
            p.register(Register::Pc)
                .wrapping_add(branch_distance(offset)),
        );
    }
}

// SOB.
pub(crate) fn count_down(p: &mut Processor, r: Register, back: u8)
    ensures { p.new ≡ looped r back p.old }
{
    p.set_register(r, p.register(r).wrapping_sub(1));
    if p.register(r) != 0 {
        p.set_register(
            Register::Pc,
            p.register(Register::Pc).wrapping_sub(2 * u16::from(back)),
        );
    }
}

// JMP.
#[tactic(auto, unfolding(crate::specs::Transfers::jumps))]
pub(crate) fn jump<B: Board, C: Cabinet>(
    machine: &mut Machine<'_, B, C>,
    destination: Operand,
) -> Result<Ending, Gone>
    ensures { Ran B.Board C.Cabinet (jumps destination) machine.old (beside result machine.new.processor.now) machine.new }
{
    let Some(at) = machine.locate(Size::Word, destination)? else {
        return Ok(Ending::TimedOut);
    };
    let Location::InMemory(target) = at else {
        return Ok(Ending::Trapped(Trap::JumpToRegister));
    };
    machine.processor.set_register(Register::Pc, target);
    Ok(Ending::Completed)
}

// JSR.
#[tactic(auto, unfolding(crate::specs::Transfers::calls, crate::specs::Transfers::calls_at, crate::specs::Transfers::links))]
pub(crate) fn call<B: Board, C: Cabinet>(
    machine: &mut Machine<'_, B, C>,
    r: Register,
    destination: Operand,
) -> Result<Ending, Gone>
    ensures { Ran B.Board C.Cabinet (calls r destination) machine.old (beside result machine.new.processor.now) machine.new }
{
    let Some(at) = machine.locate(Size::Word, destination)? else {
        return Ok(Ending::TimedOut);
    };
    let Location::InMemory(target) = at else {
        return Ok(Ending::Trapped(Trap::JumpToRegister));
    };
    let word = with_lowered_stack(*machine.processor).register(r);
    let Some(()) = push_on(machine, word)? else {
        return Ok(Ending::TimedOut);
    };
    let p = &mut *machine.processor;
    p.set_register(r, p.register(Register::Pc));
    p.set_register(Register::Pc, target);
    Ok(Ending::Completed)
}

#[tactic(auto, unfolding(crate::specs::Transfers::pops_into))]
fn pop_into<B: Board, C: Cabinet>(
    machine: &mut Machine<'_, B, C>,
    r: Register,
) -> Result<Ending, Gone>
    ensures { Ran B.Board C.Cabinet (pops_into r) machine.old (beside result machine.new.processor.now) machine.new }
{
    let Some(word) = pop(machine)? else {
        return Ok(Ending::TimedOut);
    };
    machine.processor.set_register(r, word);
    Ok(Ending::Completed)
}

// RTS.
pub(crate) fn leave<B: Board, C: Cabinet>(
    machine: &mut Machine<'_, B, C>,
    r: Register,
) -> Result<Ending, Gone>
    ensures { Ran B.Board C.Cabinet (leaves r) machine.old (beside result machine.new.processor.now) machine.new }
{
    let p = &mut *machine.processor;
    p.set_register(Register::Pc, p.register(r));
    pop_into(machine, r)
}

// MARK.
pub(crate) fn mark<B: Board, C: Cabinet>(
    machine: &mut Machine<'_, B, C>,
    words: u8,
) -> Result<Ending, Gone>
    ensures { Ran B.Board C.Cabinet (marks words) machine.old (beside result machine.new.processor.now) machine.new }
{
    let p = &mut *machine.processor;
    p.set_register(
        Register::Sp,
        p.register(Register::Pc).wrapping_add(2 * u16::from(words)),
    );
    p.set_register(Register::Pc, p.register(Register::R5));
    pop_into(machine, Register::R5)
}

// RTI and RTT, which differ only in how they end.
#[tactic(auto, unfolding(crate::specs::Transfers::restores, crate::specs::Transfers::pops_status))]
pub(crate) fn restore<B: Board, C: Cabinet>(
    machine: &mut Machine<'_, B, C>,
    ending: Ending,
) -> Result<Ending, Gone>
    ensures { Ran B.Board C.Cabinet (restores ending) machine.old (beside result machine.new.processor.now) machine.new }
{
    let Some(pc) = pop(machine)? else {
        return Ok(Ending::TimedOut);
    };
    machine.processor.set_register(Register::Pc, pc);
    let Some(psw) = pop(machine)? else {
        return Ok(Ending::TimedOut);
    };
    machine.processor.psw = psw;
    Ok(ending)
}
