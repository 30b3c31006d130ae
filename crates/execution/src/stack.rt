// The stack below SP. `None` is a time-out.
ghost use Rattle.std.specs.Prelude.{◌≡◌};
ghost use Rattle.bus.specs.Courses.{Played};
ghost use Rattle.operands.specs.State.{beside};
ghost use Rattle.operands.specs.Machines.{Ran};
ghost use Rattle.execution.specs.Stack.{lowered, pushes, pops};

use bus::{Board, Cabinet, Gone, store};
use isa::Register;
use operands::{Machine, Processor};

// The state with SP lowered, as a push leaves it.
pub(crate) fn with_lowered_stack(mut p: Processor) -> Processor
    ensures { result ≡ lowered p }
{
    p.set_register(Register::Sp, p.register(Register::Sp).wrapping_sub(2));
    p
}

// Lowers SP and writes a word there.
#[tactic(auto, unfolding(crate::specs::Stack::pushes))]
pub fn push_on<B: Board, C: Cabinet>(
    machine: &mut Machine<'_, B, C>,
    word: u16,
) -> Result<Option<()>, Gone>
    ensures { Ran B.Board C.Cabinet (pushes word) machine.old (beside result machine.new.processor.now) machine.new }
{
    *machine.processor = with_lowered_stack(*machine.processor);
    let at = machine.processor.register(Register::Sp);
    store(machine.board, machine.side, at, word)
}

// The same, for callers that lend the machine's parts one by one.
pub fn push<B: Board, C: Cabinet>(
    p: &mut Processor,
    board: &mut B,
    side: &mut C,
    word: u16,
) -> Result<Option<()>, Gone>
    ensures { Played C.meaning C.becomes (pushes word p.old) (B.meaning board.old) side.old (beside result p.new) (B.meaning board.new) side.new }
{
    let mut machine = Machine {
        processor: p,
        board,
        side,
    };
    push_on(&mut machine, word)
}

// The word at SP, which rises past it.
#[tactic(auto, unfolding(crate::specs::Stack::pops))]
pub(crate) fn pop<B: Board, C: Cabinet>(
    machine: &mut Machine<'_, B, C>,
) -> Result<Option<u16>, Gone>
    ensures { Ran B.Board C.Cabinet pops machine.old (beside result machine.new.processor.now) machine.new }
{
    machine.read_past(Register::Sp)
}
