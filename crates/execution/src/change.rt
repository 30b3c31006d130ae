// Operations on operands: what is made of a destination, and in which order it is read, flagged and written.
ghost use Rattle.std.specs.Prelude.{◌≡◌};
ghost use Rattle.operands.specs.State.{beside};
ghost use Rattle.operands.specs.Machines.{Ran};
ghost use Rattle.execution.specs.Changes.{size, outcome, puts, flagged, concludes, changes, overwrites, reads, doubles, sums, loads_status};

use crate::ending::Ending;
use arithmetic::{Flags, Outcome, sign_spread};
use bus::{Board, Cabinet, Gone};
use isa::{DoubleOperation, Operand, SingleOperation, Size};
use operands::{Location, Machine, Processor};

// ADD and SUB, which work on words alone.
#[derive(Clone, Copy)]
pub(crate) enum Sum {
    Add,
    Subtract,
}

// What an instruction makes of its destination, with the source where it has one.
#[derive(Clone, Copy)]
pub(crate) enum Change {
    Single(SingleOperation, Size),
    Double(DoubleOperation, Size, u16),
    Sum(Sum, u16),
    ExclusiveOr(u16),
    SwapBytes,
    SignExtend,
}

impl Change {
    // The size of the destination.
    fn size(self) -> Size
        ensures { result ≡ size self }
    {
        match self {
            Change::Single(_, size) => size,
            Change::Double(_, size, _) => size,
            _ => Size::Word,
        }
    }

    // Result and flags from the destination's old value and the status word.
    #[tactic(auto, unfolding(crate::specs::Changes::outcome))]
    fn outcome(self, old: u16, psw: u16) -> Outcome
        ensures { result ≡ outcome self old psw }
    {
        let flags = Flags::of_status(psw);
        match self {
            Change::Single(operation, size) => arithmetic::single(operation, size, old, flags),
            Change::Double(operation, size, source) => arithmetic::double(
                operation, size, source, old, flags,
            ),
            Change::Sum(Sum::Add, source) => arithmetic::add(source, old),
            Change::Sum(Sum::Subtract, source) => arithmetic::subtract(source, old),
            Change::ExclusiveOr(source) => arithmetic::exclusive_or(source, old, flags),
            Change::SwapBytes => arithmetic::swap_bytes(old),
            Change::SignExtend => arithmetic::sign_extend(flags),
        }
    }
}

// What a byte that is written to a register changes there.
#[derive(Clone, Copy)]
pub(crate) enum Reach {
    LowHalf,
    // The byte's sign fills the high half.
    Whole,
}

fn set_flags(p: &mut Processor, outcome: Outcome)
    ensures { p.new ≡ flagged outcome p.old }
{
    p.psw = outcome.flags.put_into(p.psw);
}

#[tactic(auto, unfolding(crate::specs::Changes::puts))]
fn put<B: Board, C: Cabinet>(
    machine: &mut Machine<'_, B, C>,
    reach: Reach,
    size: Size,
    at: Location,
    value: u16,
) -> Result<Ending, Gone>
    ensures { Ran B.Board C.Cabinet (puts reach size at value) machine.old (beside result machine.new.processor.now) machine.new }
{
    if let (Reach::Whole, Size::Byte, Location::InRegister(r)) = (reach, size, at) {
        machine.processor.set_register(r, sign_spread(value));
        return Ok(Ending::Completed);
    }
    let Some(()) = machine.give(size, at, value)? else {
        return Ok(Ending::TimedOut);
    };
    Ok(Ending::Completed)
}

#[tactic(auto, unfolding(crate::specs::Changes::concludes))]
fn conclude<B: Board, C: Cabinet>(
    machine: &mut Machine<'_, B, C>,
    reach: Reach,
    size: Size,
    at: Location,
    outcome: Outcome,
) -> Result<Ending, Gone>
    ensures { Ran B.Board C.Cabinet (concludes reach size at outcome) machine.old (beside result machine.new.processor.now) machine.new }
{
    set_flags(machine.processor, outcome);
    match outcome.value {
        None => Ok(Ending::Completed),
        Some(result) => put(machine, reach, size, at, result),
    }
}

// Reads the destination, sets the flags, and writes the result where there is one.
#[tactic(auto, unfolding(crate::specs::Changes::changes, crate::specs::Changes::alters))]
pub(crate) fn apply<B: Board, C: Cabinet>(
    machine: &mut Machine<'_, B, C>,
    change: Change,
    destination: Operand,
) -> Result<Ending, Gone>
    ensures { Ran B.Board C.Cabinet (changes change destination) machine.old (beside result machine.new.processor.now) machine.new }
{
    let size = change.size();
    let Some(at) = machine.locate(size, destination)? else {
        return Ok(Ending::TimedOut);
    };
    let Some(old) = machine.take(size, at)? else {
        return Ok(Ending::TimedOut);
    };
    let outcome = change.outcome(old, machine.processor.psw);
    conclude(machine, Reach::LowHalf, size, at, outcome)
}

// Sets the flags and writes the result, with no look at what the destination held.
#[tactic(auto, unfolding(crate::specs::Changes::overwrites))]
pub(crate) fn overwrite<B: Board, C: Cabinet>(
    machine: &mut Machine<'_, B, C>,
    size: Size,
    outcome: Outcome,
    destination: Operand,
) -> Result<Ending, Gone>
    ensures { Ran B.Board C.Cabinet (overwrites size outcome destination) machine.old (beside result machine.new.processor.now) machine.new }
{
    let Some(at) = machine.locate(size, destination)? else {
        return Ok(Ending::TimedOut);
    };
    conclude(machine, Reach::Whole, size, at, outcome)
}

#[tactic(auto, unfolding(crate::specs::Changes::reads))]
fn read<B: Board, C: Cabinet>(
    machine: &mut Machine<'_, B, C>,
    size: Size,
    source: Operand,
) -> Result<Option<u16>, Gone>
    ensures { Ran B.Board C.Cabinet (reads size source) machine.old (beside result machine.new.processor.now) machine.new }
{
    let Some(at) = machine.locate(size, source)? else {
        return Ok(None);
    };
    machine.take(size, at)
}

// MOV, CMP, BIT, BIC and BIS.
#[tactic(auto, unfolding(crate::specs::Changes::doubles))]
pub(crate) fn double<B: Board, C: Cabinet>(
    machine: &mut Machine<'_, B, C>,
    operation: DoubleOperation,
    size: Size,
    source: Operand,
    destination: Operand,
) -> Result<Ending, Gone>
    ensures { Ran B.Board C.Cabinet (doubles operation size source destination) machine.old (beside result machine.new.processor.now) machine.new }
{
    let Some(value) = read(machine, size, source)? else {
        return Ok(Ending::TimedOut);
    };
    match operation {
        DoubleOperation::Mov => {
            let flags = Flags::of_status(machine.processor.psw);
            let outcome = arithmetic::double(DoubleOperation::Mov, size, value, 0, flags);
            overwrite(machine, size, outcome, destination)
        }
        _ => apply(machine, Change::Double(operation, size, value), destination),
    }
}

// ADD and SUB.
#[tactic(auto, unfolding(crate::specs::Changes::sums))]
pub(crate) fn add_or_subtract<B: Board, C: Cabinet>(
    machine: &mut Machine<'_, B, C>,
    operation: Sum,
    source: Operand,
    destination: Operand,
) -> Result<Ending, Gone>
    ensures { Ran B.Board C.Cabinet (sums operation source destination) machine.old (beside result machine.new.processor.now) machine.new }
{
    let Some(value) = read(machine, Size::Word, source)? else {
        return Ok(Ending::TimedOut);
    };
    apply(machine, Change::Sum(operation, value), destination)
}

// MTPS.
#[tactic(auto, unfolding(crate::specs::Changes::loads_status))]
pub(crate) fn to_status<B: Board, C: Cabinet>(
    machine: &mut Machine<'_, B, C>,
    source: Operand,
) -> Result<Ending, Gone>
    ensures { Ran B.Board C.Cabinet (loads_status source) machine.old (beside result machine.new.processor.now) machine.new }
{
    let Some(byte) = read(machine, Size::Byte, source)? else {
        return Ok(Ending::TimedOut);
    };
    machine.processor.psw = arithmetic::to_status(machine.processor.psw, byte);
    Ok(Ending::Completed)
}
