// The names of registers and instructions.
ghost use Rattle.std.specs.Prelude.{◌≡◌, ℕ, ◌≤◌, List, length};
ghost use Rattle.listing.specs.Names.{register_name, control_name, single_name, double_name, condition_name, byte_mark};

use isa::{Condition, Control, DoubleOperation, Register, SingleOperation, Size};

pub(crate) trait Named {
    ghost name: { Self → List ℕ };

    // The most characters that such a name has.
    ghost longest: { ℕ };

    fn name(self) -> &'static str
        ensures text { result.now ≡ name self }
        ensures size { length result.now ≤ longest };
}

impl Named for Register {
    ghost name = { register_name };

    ghost longest = { 2 };

    fn name(self) -> &'static str {
        match self {
            Register::R0 => "R0",
            Register::R1 => "R1",
            Register::R2 => "R2",
            Register::R3 => "R3",
            Register::R4 => "R4",
            Register::R5 => "R5",
            Register::Sp => "SP",
            Register::Pc => "PC",
        }
    }
}

impl Named for Control {
    ghost name = { control_name };

    ghost longest = { 5 };

    fn name(self) -> &'static str {
        match self {
            Control::Halt => "HALT",
            Control::Wait => "WAIT",
            Control::Rti => "RTI",
            Control::Bpt => "BPT",
            Control::Iot => "IOT",
            Control::Reset => "RESET",
            Control::Rtt => "RTT",
        }
    }
}

impl Named for SingleOperation {
    ghost name = { single_name };

    ghost longest = { 3 };

    fn name(self) -> &'static str {
        match self {
            SingleOperation::Clr => "CLR",
            SingleOperation::Com => "COM",
            SingleOperation::Inc => "INC",
            SingleOperation::Dec => "DEC",
            SingleOperation::Neg => "NEG",
            SingleOperation::Adc => "ADC",
            SingleOperation::Sbc => "SBC",
            SingleOperation::Tst => "TST",
            SingleOperation::Ror => "ROR",
            SingleOperation::Rol => "ROL",
            SingleOperation::Asr => "ASR",
            SingleOperation::Asl => "ASL",
        }
    }
}

impl Named for DoubleOperation {
    ghost name = { double_name };

    ghost longest = { 3 };

    fn name(self) -> &'static str {
        match self {
            DoubleOperation::Mov => "MOV",
            DoubleOperation::Cmp => "CMP",
            DoubleOperation::Bit => "BIT",
            DoubleOperation::Bic => "BIC",
            DoubleOperation::Bis => "BIS",
        }
    }
}

impl Named for Condition {
    ghost name = { condition_name };

    ghost longest = { 4 };

    fn name(self) -> &'static str {
        match self {
            Condition::Br => "BR",
            Condition::Bne => "BNE",
            Condition::Beq => "BEQ",
            Condition::Bge => "BGE",
            Condition::Blt => "BLT",
            Condition::Bgt => "BGT",
            Condition::Ble => "BLE",
            Condition::Bpl => "BPL",
            Condition::Bmi => "BMI",
            Condition::Bhi => "BHI",
            Condition::Blos => "BLOS",
            Condition::Bvc => "BVC",
            Condition::Bvs => "BVS",
            Condition::Bcc => "BCC",
            Condition::Bcs => "BCS",
        }
    }
}

impl Named for Size {
    ghost name = { byte_mark };

    ghost longest = { 1 };

    fn name(self) -> &'static str {
        match self {
            Size::Word => "",
            Size::Byte => "B",
        }
    }
}
