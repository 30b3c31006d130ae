// The processor's state: registers, status word, and the marks that pass from step to step.
ghost use Rattle.std.specs.Prelude.{◌≡◌, Decides};
ghost use Rattle.operands.specs.State.{register, with_register};
ghost use Rattle.operands.specs.SamenessLaws.{same_state_equivalence, same_state_chain};
ghost use Rattle.operands.specs.Sameness.{same_state};

use bus::LineBits;
use isa::Register;

// Whether the processor runs, stopped at a HALT, died while entering a vector, or lost its cabinet side.
#[derive(Clone, Copy, Default, PartialEq, Eq)]
pub enum Life {
    Running,
    #[default]
    Halted,
    Dead,
    Ended,
}

// Requests set by a line that became active, and not entered yet.
#[derive(Clone, Copy, Default, PartialEq, Eq)]
pub struct Requests {
    pub aclo: bool,
    pub irq2: bool,
    pub irq3: bool,
}

// R0 to R7, the status word PSW, the lines as last sampled, the requests, the trace and waiting marks, and life.
#[derive(Clone, Copy, Default)]
pub struct Processor {
    pub registers: [u16; 8],
    pub psw: u16,
    pub lines: LineBits,
    pub requests: Requests,
    pub trace: bool,
    pub waiting: bool,
    pub life: Life,
}

impl Processor {
    // What a register holds.
    pub fn register(&self, r: Register) -> u16
        ensures { result ≡ register self.now r }
    {
        self.registers[r as usize]
    }

    // Puts a word into a register.
    pub fn set_register(&mut self, which: Register, word: u16)
        ensures { self.new ≡ with_register self.old which word }
    {
        self.registers[which as usize] = word;
    }
}

// Whether requests, marks and lives are the same; apart from `eq`, whose chain would get too long to be proved.
fn same_marks(a: &Processor, b: &Processor) -> bool
    ensures { Decides result ((a.now.requests ≡ b.now.requests) × (a.now.trace ≡ b.now.trace) × (a.now.waiting ≡ b.now.waiting) × (a.now.life ≡ b.now.life)) }
{
    a.requests == b.requests && a.trace == b.trace && a.waiting == b.waiting && a.life == b.life
}

// States are equal in all their parts. Not derived: a derived `==` promises its own test alone, and not that this decides.
impl PartialEq for Processor {
    ghost eq = { same_state };

    ghost laws = { same_state_chain };

    fn eq(&self, other: &Processor) -> bool
        ensures answer { result ≡ same_state self.now other.now }
        ensures decides { Decides result (self.now ≡ other.now) }
    {
        self.registers == other.registers
            && self.psw == other.psw
            && self.lines == other.lines
            && same_marks(self, other)
    }
}

impl Eq for Processor {
    ghost laws = { same_state_equivalence };
}
