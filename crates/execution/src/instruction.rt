// One instruction, by its group.
ghost use Rattle.bus.specs.Courses.{Played};
ghost use Rattle.operands.specs.State.{beside};
ghost use Rattle.operands.specs.Machines.{Ran};
ghost use Rattle.execution.specs.Executes.{executes};

use crate::change::{Change, Sum, add_or_subtract, apply, double, overwrite, to_status};
use crate::control::{control, reflag};
use crate::ending::{Ending, Trap};
use crate::transfer::{branch, call, count_down, jump, leave, mark};
use arithmetic::from_status;
use bus::{Board, Cabinet, Gone};
use isa::{Instruction, Size};
use operands::{Machine, Processor};

// Executes an instruction whose word was fetched; PC is past it already. A match and no table of functions: its cases are what an
// instruction is.
#[tactic(auto, unfolding(crate::specs::Executes::executes))]
pub fn execute_on<B: Board, C: Cabinet>(
    machine: &mut Machine<'_, B, C>,
    instruction: Instruction,
) -> Result<Ending, Gone>
    ensures { Ran B.Board C.Cabinet (executes instruction) machine.old (beside result machine.new.processor.now) machine.new }
{
    match instruction {
        Instruction::Control(word) => control(machine, word),
        Instruction::Jump(d) => jump(machine, d),
        Instruction::Return(r) => leave(machine, r),
        Instruction::Flags(change, mask) => {
            reflag(machine.processor, change, mask);
            Ok(Ending::Completed)
        }
        Instruction::SwapBytes(d) => apply(machine, Change::SwapBytes, d),
        Instruction::Branch(condition, offset) => {
            branch(machine.processor, condition, offset);
            Ok(Ending::Completed)
        }
        Instruction::Call(r, d) => call(machine, r, d),
        Instruction::Single(size, operation, d) => {
            apply(machine, Change::Single(operation, size), d)
        }
        Instruction::Mark(words) => mark(machine, words),
        Instruction::SignExtend(d) => apply(machine, Change::SignExtend, d),
        Instruction::ToStatus(s) => to_status(machine, s),
        Instruction::FromStatus(d) => {
            let outcome = from_status(machine.processor.psw);
            overwrite(machine, Size::Byte, outcome, d)
        }
        Instruction::Double(size, operation, s, d) => double(machine, operation, size, s, d),
        Instruction::Add(s, d) => add_or_subtract(machine, Sum::Add, s, d),
        Instruction::Subtract(s, d) => add_or_subtract(machine, Sum::Subtract, s, d),
        Instruction::ExclusiveOr(r, d) => {
            let source = machine.processor.register(r);
            apply(machine, Change::ExclusiveOr(source), d)
        }
        Instruction::Loop(r, back) => {
            count_down(machine.processor, r, back);
            Ok(Ending::Completed)
        }
        Instruction::Emulate(_) => Ok(Ending::Trapped(Trap::Emt)),
        Instruction::Trap(_) => Ok(Ending::Trapped(Trap::Trap)),
        Instruction::Reserved(_) => Ok(Ending::Trapped(Trap::Reserved)),
    }
}

// The same, for callers that lend the machine's parts one by one.
pub fn execute<B: Board, C: Cabinet>(
    p: &mut Processor,
    board: &mut B,
    side: &mut C,
    instruction: Instruction,
) -> Result<Ending, Gone>
    ensures { Played C.meaning C.becomes (executes instruction p.old) (B.meaning board.old) side.old (beside result p.new) (B.meaning board.new) side.new }
{
    let mut machine = Machine {
        processor: p,
        board,
        side,
    };
    execute_on(&mut machine, instruction)
}
