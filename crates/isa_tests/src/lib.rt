// Tests of the instruction set on words worked out by hand, and on all words.
#![tactic(auto)]

#[cfg(test)]
mod tests {
    use isa::{
        Condition, Control, DoubleOperation, FlagChange, FlagMask, Instruction, Operand, Register,
        SingleOperation, Size, decode, encode,
    };

    #[test]
    fn operations_with_operands_are_read(rt: HostRuntime) {
        // MOV #n, R3
        assert_eq!(rt;
            decode(0o012703),
            Instruction::Double(
                Size::Word,
                DoubleOperation::Mov,
                Operand::Increment(Register::Pc),
                Operand::Direct(Register::R3)
            )
        );
        // BICB @-(R1), 4(R2)
        assert_eq!(rt;
            decode(0o145162),
            Instruction::Double(
                Size::Byte,
                DoubleOperation::Bic,
                Operand::DecrementDeferred(Register::R1),
                Operand::Index(Register::R2)
            )
        );
        // ADD (R4), -(SP)
        assert_eq!(rt;
            decode(0o061446),
            Instruction::Add(
                Operand::Deferred(Register::R4),
                Operand::Decrement(Register::Sp)
            )
        );
        // SUB R2, @4(R5)
        assert_eq!(rt;
            decode(0o160275),
            Instruction::Subtract(
                Operand::Direct(Register::R2),
                Operand::IndexDeferred(Register::R5)
            )
        );
        // TSTB @#n
        assert_eq!(rt;
            decode(0o105737),
            Instruction::Single(
                Size::Byte,
                SingleOperation::Tst,
                Operand::IncrementDeferred(Register::Pc)
            )
        );
        // ASL R0
        assert_eq!(rt;
            decode(0o006300),
            Instruction::Single(
                Size::Word,
                SingleOperation::Asl,
                Operand::Direct(Register::R0)
            )
        );
        // XOR R1, (R2)+
        assert_eq!(rt;
            decode(0o074122),
            Instruction::ExclusiveOr(Register::R1, Operand::Increment(Register::R2))
        );
        // SXT R2, MTPS #n, MFPS R0
        assert_eq!(rt;
            decode(0o006702),
            Instruction::SignExtend(Operand::Direct(Register::R2))
        );
        assert_eq!(rt;
            decode(0o106427),
            Instruction::ToStatus(Operand::Increment(Register::Pc))
        );
        assert_eq!(rt;
            decode(0o106700),
            Instruction::FromStatus(Operand::Direct(Register::R0))
        );
        // SWAB R1, JMP (R3), JSR PC, n(PC)
        assert_eq!(rt;
            decode(0o000301),
            Instruction::SwapBytes(Operand::Direct(Register::R1))
        );
        assert_eq!(rt;
            decode(0o000113),
            Instruction::Jump(Operand::Deferred(Register::R3))
        );
        assert_eq!(rt;
            decode(0o004767),
            Instruction::Call(Register::Pc, Operand::Index(Register::Pc))
        );
    }

    #[test]
    fn words_without_operands_are_read(rt: HostRuntime) {
        assert_eq!(rt; decode(0o000000), Instruction::Control(Control::Halt));
        assert_eq!(rt; decode(0o000006), Instruction::Control(Control::Rtt));
        assert_eq!(rt; decode(0o000207), Instruction::Return(Register::Pc));
        // BEQ past two words, BR to itself, BCS 128 words back
        assert_eq!(rt; decode(0o001402), Instruction::Branch(Condition::Beq, 2));
        assert_eq!(rt; decode(0o000777), Instruction::Branch(Condition::Br, -1));
        assert_eq!(rt; decode(0o103600), Instruction::Branch(Condition::Bcs, -128));
        // CCC, SEZ, NOP
        assert_eq!(rt;
            decode(0o000257),
            Instruction::Flags(
                FlagChange::Clear,
                FlagMask {
                    n: true,
                    z: true,
                    v: true,
                    c: true
                }
            )
        );
        assert_eq!(rt;
            decode(0o000264),
            Instruction::Flags(
                FlagChange::Set,
                FlagMask {
                    n: false,
                    z: true,
                    v: false,
                    c: false
                }
            )
        );
        assert_eq!(rt;
            decode(0o000240),
            Instruction::Flags(
                FlagChange::Clear,
                FlagMask {
                    n: false,
                    z: false,
                    v: false,
                    c: false
                }
            )
        );
        assert_eq!(rt; decode(0o006477), Instruction::Mark(63));
        assert_eq!(rt; decode(0o077302), Instruction::Loop(Register::R3, 2));
        assert_eq!(rt; decode(0o104377), Instruction::Emulate(255));
        assert_eq!(rt; decode(0o104400), Instruction::Trap(0));
        // both ends of gaps in the table
        assert_eq!(rt; decode(0o000007), Instruction::Reserved(0o000007));
        assert_eq!(rt; decode(0o000210), Instruction::Reserved(0o000210));
        assert_eq!(rt; decode(0o006677), Instruction::Reserved(0o006677));
        assert_eq!(rt; decode(0o075000), Instruction::Reserved(0o075000));
        assert_eq!(rt; decode(0o170000), Instruction::Reserved(0o170000));
    }

    #[test]
    fn instructions_are_written(rt: HostRuntime) {
        let source = Operand::IndexDeferred(Register::Sp);
        let destination = Operand::Decrement(Register::R1);
        assert_eq!(rt;
            encode(Instruction::Double(Size::Word, DoubleOperation::Cmp, source, destination)),
            0o027641
        );
        assert_eq!(rt;
            encode(Instruction::Single(Size::Byte, SingleOperation::Neg, destination)),
            0o105441
        );
        assert_eq!(rt; encode(Instruction::Branch(Condition::Blos, -3)), 0o101775);
        assert_eq!(rt;
            encode(Instruction::Subtract(destination, source)),
            0o164176
        );
        let overflow = FlagMask {
            n: false,
            z: false,
            v: true,
            c: false,
        };
        assert_eq!(rt;
            encode(Instruction::Flags(FlagChange::Set, overflow)),
            0o000262
        );
        assert_eq!(rt; encode(Instruction::Loop(Register::R5, 65)), 0o077501);
        assert_eq!(rt; encode(Instruction::Mark(64)), 0o006400);
        assert_eq!(rt; encode(Instruction::Reserved(0o000010)), 0o000010);
    }

    #[test]
    fn further_words_are_counted(rt: HostRuntime) {
        // MOV #n, @#n; CLR n(R1); TST -(PC); MOV R1, (R2)+; BR; JMP (PC)+
        assert_eq!(rt; decode(0o012737).further_words(), 2);
        assert_eq!(rt; decode(0o005061).further_words(), 1);
        assert_eq!(rt; decode(0o005747).further_words(), 0);
        assert_eq!(rt; decode(0o010122).further_words(), 0);
        assert_eq!(rt; decode(0o000400).further_words(), 0);
        assert_eq!(rt; decode(0o000127).further_words(), 1);
        assert!(rt; Operand::IncrementDeferred(Register::Pc).takes_word());
        assert!(rt; !Operand::IncrementDeferred(Register::Sp).takes_word());
    }

    // The sums were counted by a program of another make.
    #[test]
    fn all_words_are_read_and_written_back(rt: HostRuntime) {
        for word in 0..=u16::MAX {
            assert_eq!(rt; encode(decode(word)), word);
        }
        let reserved = (0..=u16::MAX)
            .filter(|word| matches!(decode(*word), Instruction::Reserved(_)))
            .count();
        let further = (0..=u16::MAX)
            .map(|word| u32::from(decode(word).further_words()))
            .fold(0, u32::wrapping_add);
        assert_eq!(rt; reserved, 8529);
        assert_eq!(rt; further, 28458);
    }
}
