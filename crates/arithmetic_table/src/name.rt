// What the first field of a row names.
use isa::{Condition, DoubleOperation, SingleOperation, Size};

#[derive(Clone, Copy)]
pub enum Operation {
    Single(SingleOperation, Size),
    Double(DoubleOperation, Size),
    Add,
    Subtract,
    ExclusiveOr,
    SwapBytes,
    SignExtend,
    FromStatus,
    ToStatus,
    PutFlags,
    ChangeFlags,
    Branch(Condition),
    Spread,
    Distance,
}

// Names are matched here and below: no derive reads a name, and the enums are another crate's, so FromStr cannot be theirs.
fn single_named(name: &str) -> Option<SingleOperation> {
    let operation = match name {
        "CLR" => SingleOperation::Clr,
        "COM" => SingleOperation::Com,
        "INC" => SingleOperation::Inc,
        "DEC" => SingleOperation::Dec,
        "NEG" => SingleOperation::Neg,
        "ADC" => SingleOperation::Adc,
        "SBC" => SingleOperation::Sbc,
        "TST" => SingleOperation::Tst,
        "ROR" => SingleOperation::Ror,
        "ROL" => SingleOperation::Rol,
        "ASR" => SingleOperation::Asr,
        "ASL" => SingleOperation::Asl,
        _ => return None,
    };
    Some(operation)
}

fn double_named(name: &str) -> Option<DoubleOperation> {
    let operation = match name {
        "MOV" => DoubleOperation::Mov,
        "CMP" => DoubleOperation::Cmp,
        "BIT" => DoubleOperation::Bit,
        "BIC" => DoubleOperation::Bic,
        "BIS" => DoubleOperation::Bis,
        _ => return None,
    };
    Some(operation)
}

fn condition_named(name: &str) -> Option<Condition> {
    let condition = match name {
        "BR" => Condition::Br,
        "BNE" => Condition::Bne,
        "BEQ" => Condition::Beq,
        "BGE" => Condition::Bge,
        "BLT" => Condition::Blt,
        "BGT" => Condition::Bgt,
        "BLE" => Condition::Ble,
        "BPL" => Condition::Bpl,
        "BMI" => Condition::Bmi,
        "BHI" => Condition::Bhi,
        "BLOS" => Condition::Blos,
        "BVC" => Condition::Bvc,
        "BVS" => Condition::Bvs,
        "BCC" => Condition::Bcc,
        "BCS" => Condition::Bcs,
        _ => return None,
    };
    Some(condition)
}

// The operations that have one form only; PUT, FLAGS, SPREAD and BRANCH are the table's own names.
fn other_named(name: &str) -> Option<Operation> {
    let operation = match name {
        "ADD" => Operation::Add,
        "SUB" => Operation::Subtract,
        "XOR" => Operation::ExclusiveOr,
        "SWAB" => Operation::SwapBytes,
        "SXT" => Operation::SignExtend,
        "MFPS" => Operation::FromStatus,
        "MTPS" => Operation::ToStatus,
        "PUT" => Operation::PutFlags,
        "FLAGS" => Operation::ChangeFlags,
        "SPREAD" => Operation::Spread,
        "BRANCH" => Operation::Distance,
        _ => return None,
    };
    Some(operation)
}

// An operation of words, or of bytes where a B follows its name.
fn sized_named(stem: &str, size: Size) -> Option<Operation> {
    single_named(stem)
        .map(|operation| Operation::Single(operation, size))
        .or_else(|| double_named(stem).map(|operation| Operation::Double(operation, size)))
}

impl Operation {
    pub(crate) fn named(name: &str) -> Option<Operation> {
        other_named(name)
            .or_else(|| condition_named(name).map(Operation::Branch))
            .or_else(|| match name.strip_suffix('B') {
                Some(stem) => sized_named(stem, Size::Byte),
                None => sized_named(name, Size::Word),
            })
    }
}
