// Mnemonics by their first three characters. Any other text is taken for a .WORD.
ghost use Rattle.std.specs.Prelude.{◌≡◌};
ghost use Rattle.line_reader.specs.Mnemonics.{after_b, after_c, after_s, other, by_letter, mnemonic_in};

use crate::characters::look;
use crate::parsed::{Mnemonic, Numbered, OneOperand, RegisterFirst, TwoOperands};
use isa::{Condition, Control, DoubleOperation, SingleOperation};

// The names that begin with B.
fn after_b(second: char, third: char) -> Mnemonic
    ensures { result ≡ after_b second third }
{
    match (second, third) {
        ('P', 'T') => Mnemonic::Control(Control::Bpt),
        ('R', ' ') => Mnemonic::Branch(Condition::Br),
        ('N', 'E') => Mnemonic::Branch(Condition::Bne),
        ('E', 'Q') => Mnemonic::Branch(Condition::Beq),
        ('G', 'E') => Mnemonic::Branch(Condition::Bge),
        ('L', 'T') => Mnemonic::Branch(Condition::Blt),
        ('G', 'T') => Mnemonic::Branch(Condition::Bgt),
        ('L', 'E') => Mnemonic::Branch(Condition::Ble),
        ('P', 'L') => Mnemonic::Branch(Condition::Bpl),
        ('M', 'I') => Mnemonic::Branch(Condition::Bmi),
        ('H', 'I') => Mnemonic::Branch(Condition::Bhi),
        ('L', 'O') => Mnemonic::Branch(Condition::Blos),
        ('V', 'C') => Mnemonic::Branch(Condition::Bvc),
        ('V', 'S') => Mnemonic::Branch(Condition::Bvs),
        ('C', 'C') => Mnemonic::Branch(Condition::Bcc),
        ('C', 'S') => Mnemonic::Branch(Condition::Bcs),
        ('I', 'T') => Mnemonic::Two(TwoOperands::Double(DoubleOperation::Bit)),
        ('I', 'C') => Mnemonic::Two(TwoOperands::Double(DoubleOperation::Bic)),
        ('I', 'S') => Mnemonic::Two(TwoOperands::Double(DoubleOperation::Bis)),
        _ => Mnemonic::Number(Numbered::Data),
    }
}

// The names that begin with C.
fn after_c(second: char, third: char) -> Mnemonic
    ensures { result ≡ after_c second third }
{
    match (second, third) {
        ('L', 'C') => Mnemonic::Flags(0o241),
        ('L', 'V') => Mnemonic::Flags(0o242),
        ('L', 'Z') => Mnemonic::Flags(0o244),
        ('L', 'N') => Mnemonic::Flags(0o250),
        ('C', 'C') => Mnemonic::Flags(0o257),
        ('L', 'R') => Mnemonic::One(OneOperand::Single(SingleOperation::Clr)),
        ('O', 'M') => Mnemonic::One(OneOperand::Single(SingleOperation::Com)),
        ('M', 'P') => Mnemonic::Two(TwoOperands::Double(DoubleOperation::Cmp)),
        _ => Mnemonic::Number(Numbered::Data),
    }
}

// The names that begin with S.
fn after_s(second: char, third: char) -> Mnemonic
    ensures { result ≡ after_s second third }
{
    match (second, third) {
        ('E', 'C') => Mnemonic::Flags(0o261),
        ('E', 'V') => Mnemonic::Flags(0o262),
        ('E', 'Z') => Mnemonic::Flags(0o264),
        ('E', 'N') => Mnemonic::Flags(0o270),
        ('C', 'C') => Mnemonic::Flags(0o277),
        ('W', 'A') => Mnemonic::One(OneOperand::SwapBytes),
        ('B', 'C') => Mnemonic::One(OneOperand::Single(SingleOperation::Sbc)),
        ('X', 'T') => Mnemonic::One(OneOperand::SignExtend),
        ('U', 'B') => Mnemonic::Two(TwoOperands::Subtract),
        ('O', 'B') => Mnemonic::Loop,
        _ => Mnemonic::Number(Numbered::Data),
    }
}

// The names that begin with another letter.
fn other(first: char, second: char, third: char) -> Mnemonic
    ensures { result ≡ other first second third }
{
    match (first, second, third) {
        ('H', 'A', 'L') => Mnemonic::Control(Control::Halt),
        ('W', 'A', 'I') => Mnemonic::Control(Control::Wait),
        ('R', 'T', 'I') => Mnemonic::Control(Control::Rti),
        ('I', 'O', 'T') => Mnemonic::Control(Control::Iot),
        ('R', 'E', 'S') => Mnemonic::Control(Control::Reset),
        ('R', 'T', 'T') => Mnemonic::Control(Control::Rtt),
        ('N', 'O', 'P') => Mnemonic::Flags(0o240),
        ('R', 'T', 'S') => Mnemonic::Return,
        ('J', 'M', 'P') => Mnemonic::One(OneOperand::Jump),
        ('J', 'S', 'R') => Mnemonic::Register(RegisterFirst::Call),
        ('X', 'O', 'R') => Mnemonic::Register(RegisterFirst::ExclusiveOr),
        ('I', 'N', 'C') => Mnemonic::One(OneOperand::Single(SingleOperation::Inc)),
        ('D', 'E', 'C') => Mnemonic::One(OneOperand::Single(SingleOperation::Dec)),
        ('N', 'E', 'G') => Mnemonic::One(OneOperand::Single(SingleOperation::Neg)),
        ('A', 'D', 'C') => Mnemonic::One(OneOperand::Single(SingleOperation::Adc)),
        ('T', 'S', 'T') => Mnemonic::One(OneOperand::Single(SingleOperation::Tst)),
        ('R', 'O', 'R') => Mnemonic::One(OneOperand::Single(SingleOperation::Ror)),
        ('R', 'O', 'L') => Mnemonic::One(OneOperand::Single(SingleOperation::Rol)),
        ('A', 'S', 'R') => Mnemonic::One(OneOperand::Single(SingleOperation::Asr)),
        ('A', 'S', 'L') => Mnemonic::One(OneOperand::Single(SingleOperation::Asl)),
        ('M', 'T', 'P') => Mnemonic::One(OneOperand::ToStatus),
        ('M', 'F', 'P') => Mnemonic::One(OneOperand::FromStatus),
        ('M', 'O', 'V') => Mnemonic::Two(TwoOperands::Double(DoubleOperation::Mov)),
        ('A', 'D', 'D') => Mnemonic::Two(TwoOperands::Add),
        ('M', 'A', 'R') => Mnemonic::Number(Numbered::Mark),
        ('E', 'M', 'T') => Mnemonic::Number(Numbered::Emulate),
        ('T', 'R', 'A') => Mnemonic::Number(Numbered::Trap),
        _ => Mnemonic::Number(Numbered::Data),
    }
}

fn by_letter(first: char, second: char, third: char) -> Mnemonic
    ensures { result ≡ by_letter first second third }
{
    match first {
        'B' => after_b(second, third),
        'C' => after_c(second, third),
        'S' => after_s(second, third),
        _ => other(first, second, third),
    }
}

// The mnemonic at the front of a line.
#[tactic(auto, unfolding(crate::specs::Mnemonics::mnemonic_in))]
pub(crate) fn mnemonic_in(line: &[u8]) -> Mnemonic
    ensures { result ≡ mnemonic_in line.now }
{
    by_letter(look(line, 0), look(line, 1), look(line, 2))
}
