// Every group of instructions, each with registers, PC and PSW afterwards.
use crate::machine::ran;

#[test]
fn one_operand(rt: HostRuntime) {
    // INC of the largest number; NEG of the smallest; SWAB to a zero low byte
    assert_eq!(rt;
        ran(&[0o12700, 0o77777, 0o5200], &[], 0, 2),
        ([0o100000, 0, 0o1000, 0o1006, 0o12], 'G')
    );
    assert_eq!(rt;
        ran(&[0o12700, 0o100000, 0o5400], &[], 0, 2),
        ([0o100000, 0, 0o1000, 0o1006, 0o13], 'G')
    );
    assert_eq!(rt;
        ran(&[0o12700, 0o377, 0o300], &[], 0, 2),
        ([0o177400, 0, 0o1000, 0o1006, 0o4], 'G')
    );
    // ADC with C set; SXT with N set; ROL through C
    assert_eq!(rt; ran(&[0o5500], &[], 1, 1), ([1, 0, 0o1000, 0o1002, 0], 'G'));
    assert_eq!(rt;
        ran(&[0o6700], &[], 0o10, 1),
        ([0o177777, 0, 0o1000, 0o1002, 0o10], 'G')
    );
    assert_eq!(rt;
        ran(&[0o12700, 0o100001, 0o6100], &[], 1, 2),
        ([3, 0, 0o1000, 0o1006, 3], 'G')
    );
}

#[test]
fn two_operands(rt: HostRuntime) {
    // SUB below zero; BIS, BIC and BIT; XOR
    assert_eq!(rt;
        ran(&[0o12701, 3, 0o162701, 5], &[], 0, 2),
        ([0, 0o177776, 0o1000, 0o1010, 0o11], 'G')
    );
    assert_eq!(rt;
        ran(&[0o52700, 6, 0o42700, 2, 0o32700, 4], &[], 0, 3),
        ([4, 0, 0o1000, 0o1014, 0], 'G')
    );
    assert_eq!(rt;
        ran(&[0o12700, 6, 0o12701, 3, 0o74001], &[], 0, 3),
        ([6, 5, 0o1000, 0o1012, 0], 'G')
    );
    // CMP of the smallest number with 1: V alone, so that BLT is taken
    assert_eq!(rt;
        ran(&[0o12700, 0o100000, 0o12701, 1, 0o20001, 0o2401], &[], 0, 4),
        ([0o100000, 1, 0o1000, 0o1016, 2], 'G')
    );
}

#[test]
fn bytes(rt: HostRuntime) {
    // MOVB spreads its sign over a register, and in memory writes the high half at an odd address
    assert_eq!(rt;
        ran(&[0o112700, 0o200], &[], 0, 1),
        ([0o177600, 0, 0o1000, 0o1004, 0o10], 'G')
    );
    assert_eq!(rt;
        ran(
            &[0o112737, 0o252, 0o3001, 0o13700, 0o3000],
            &[(0o3000, 0o21)],
            0,
            2,
        ),
        ([0o125021, 0, 0o1000, 0o1012, 0o10], 'G')
    );
    // CLRB changes the low half of a register; through (SP)+ it still moves SP by 2
    assert_eq!(rt;
        ran(&[0o12700, 0o123456, 0o105000, 0o105026], &[], 0, 3),
        ([0o123400, 0, 0o1002, 0o1010, 4], 'G')
    );
    // MTPS sets the low byte of PSW; MFPS spreads that byte, and keeps C
    assert_eq!(rt;
        ran(&[0o106427, 0o13, 0o106700], &[], 0, 2),
        ([0o13, 0, 0o1000, 0o1006, 1], 'G')
    );
}

#[test]
fn modes_through_memory(rt: HostRuntime) {
    // a pointer at 3000 to 3002, which holds 111: @(R1)+, @-(R1), 2(R1), @0(R1), and -(R1) from 3004
    let words = [(0o3000, 0o3002), (0o3002, 0o111)];
    assert_eq!(rt;
        ran(&[0o12701, 0o3000, 0o13100], &words, 0, 2),
        ([0o111, 0o3002, 0o1000, 0o1006, 0], 'G')
    );
    assert_eq!(rt;
        ran(&[0o12701, 0o3002, 0o15100], &words, 0, 2),
        ([0o111, 0o3000, 0o1000, 0o1006, 0], 'G')
    );
    assert_eq!(rt;
        ran(&[0o12701, 0o3000, 0o16100, 2], &words, 0, 2),
        ([0o111, 0o3000, 0o1000, 0o1010, 0], 'G')
    );
    assert_eq!(rt;
        ran(&[0o12701, 0o3000, 0o17100, 0], &words, 0, 2),
        ([0o111, 0o3000, 0o1000, 0o1010, 0], 'G')
    );
    // the word at PC is passed before PC is added to it: 016700 000002 reads the word after the next
    assert_eq!(rt;
        ran(&[0o16700, 2, 0, 0o222], &[], 0, 1),
        ([0o222, 0, 0o1000, 0o1004, 0], 'G')
    );
}

#[test]
fn branches_loops_and_flags(rt: HostRuntime) {
    assert_eq!(rt; ran(&[0o777], &[], 0, 1), ([0, 0, 0o1000, 0o1000, 0], 'G'));
    // SOB falls through at 0, and goes back otherwise
    assert_eq!(rt;
        ran(&[0o12700, 1, 0o77001], &[], 0, 2),
        ([0, 0, 0o1000, 0o1006, 0], 'G')
    );
    assert_eq!(rt;
        ran(&[0o12700, 2, 0o77001], &[], 0, 2),
        ([1, 0, 0o1000, 0o1004, 0], 'G')
    );
    // SCC, then CLZ
    assert_eq!(rt;
        ran(&[0o277, 0o244], &[], 0, 2),
        ([0, 0, 0o1000, 0o1004, 0o13], 'G')
    );
}

#[test]
fn calls_and_returns(rt: HostRuntime) {
    // JSR R5,@#3000 with 123 behind it; there MOV (R5)+,R0 and RTS R5; then MOV R5,R1, which is 0 again
    assert_eq!(rt;
        ran(
            &[0o4537, 0o3000, 0o123, 0o10501],
            &[(0o3000, 0o12500), (0o3002, 0o205)],
            0,
            4,
        ),
        ([0o123, 0, 0o1000, 0o1010, 4], 'G')
    );
    // JSR SP,@#3000 pushes SP as already lowered, at 776, which MOV @#776,R0 shows
    assert_eq!(rt;
        ran(
            &[0o4637, 0o3000],
            &[(0o3000, 0o13700), (0o3002, 0o776)],
            0,
            2,
        ),
        ([0o776, 0, 0o1004, 0o3004, 0], 'G')
    );
    // MARK 2 after MOV #3000,R5: SP is past two words, PC is 3000, R5 is 777, which MOV R5,R0 shows
    assert_eq!(rt;
        ran(
            &[0o12705, 0o3000, 0o6402, 0, 0, 0o777],
            &[(0o3000, 0o10500)],
            0,
            3,
        ),
        ([0o777, 0, 0o1014, 0o3002, 0], 'G')
    );
    // RTI with SP at its own word pops that as PC, and the next word as PSW
    assert_eq!(rt;
        ran(&[0o2, 0o11], &[], 0, 1),
        ([0, 0, 0o1004, 0o2, 0o11], 'G')
    );
}

#[test]
fn traps(rt: HostRuntime) {
    // JMP R0, a reserved word, BPT, IOT, EMT and TRAP
    assert_eq!(rt; ran(&[0o100], &[], 1, 1), ([0, 0, 0o774, 0o2004, 0], 'E'));
    assert_eq!(rt; ran(&[0o7000], &[], 0, 1), ([0, 0, 0o774, 0o2010, 0], 'E'));
    assert_eq!(rt;
        (ran(&[3], &[], 0, 1).0[3], ran(&[4], &[], 0, 1).0[3]),
        (0o2014, 0o2020)
    );
    assert_eq!(rt;
        (
            ran(&[0o104001], &[], 0, 1).0[3],
            ran(&[0o104401], &[], 0, 1).0[3],
        ),
        (0o2030, 0o2034)
    );
    // what was pushed, PC at 774 and PSW at 776: MOV @#774,R0 and MOV @#776,R1
    assert_eq!(rt;
        ran(
            &[0o3],
            &[
                (0o2014, 0o13700),
                (0o2016, 0o774),
                (0o2020, 0o13701),
                (0o2022, 0o776),
            ],
            0o345,
            3,
        ),
        ([0o1002, 0o345, 0o774, 0o2024, 0], 'G')
    );
}

#[test]
fn halting_waiting_and_tracing(rt: HostRuntime) {
    assert_eq!(rt;
        ran(&[0], &[], 0o340, 1),
        ([0, 0, 0o1000, 0o1002, 0o340], 'H')
    );
    assert_eq!(rt;
        (
            ran(&[0], &[], 0, 2).1,
            ran(&[1], &[], 0, 1).1,
            ran(&[1], &[], 0, 3).1,
        ),
        ('I', 'G', 'W')
    );
    // with T set NOP is executed, and then 14 is entered
    assert_eq!(rt;
        (ran(&[0o240], &[], 0o20, 1), ran(&[0o240], &[], 0o20, 2)),
        (
            ([0, 0, 0o1000, 0o1002, 0o20], 'G'),
            ([0, 0, 0o774, 0o2014, 0], 'E'),
        )
    );
}

// RTI lets 14 be entered at once where T comes back set; RTT lets one instruction go first.
#[test]
fn returning_to_a_trace(rt: HostRuntime) {
    assert_eq!(rt;
        ran(&[2, 0o20], &[], 0, 2),
        ([0, 0, 0o1000, 0o2014, 0], 'E')
    );
    // the word 6 of RTT itself is popped as PC, where NOP stands
    assert_eq!(rt;
        ran(&[6, 0o20], &[(6, 0o240)], 0, 2),
        ([0, 0, 0o1004, 0o10, 0o20], 'G')
    );
    assert_eq!(rt;
        ran(&[6, 0o20], &[(6, 0o240)], 0, 3),
        ([0, 0, 0o1000, 0o2014, 0], 'E')
    );
}

// JMP to 1005 fetches the NOP at 1004, and PC rises by 2.
#[test]
fn an_odd_pc(rt: HostRuntime) {
    assert_eq!(rt;
        ran(&[0o137, 0o1005, 0o240], &[], 0, 2),
        ([0, 0, 0o1000, 0o1007, 0], 'G')
    );
}
