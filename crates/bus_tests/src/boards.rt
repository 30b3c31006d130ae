// Both boards at the first and last addresses of their parts.
use bus::{Board, CabinetBoard, FlatBoard, Refusal};
use std::test::Fail;

// The number of a question's refusal, or 0.
fn refused<S: Drop>(answer: Result<S, Refusal>) -> u8 {
    answer.err().map_or(0, |refusal| refusal.number())
}

#[test]
fn lengths_are_asked_in_order(rt: HostRuntime) {
    assert_eq!(rt;
        (
            refused(FlatBoard::question(65_535)),
            refused(FlatBoard::question(65_536)),
            refused(FlatBoard::question(65_537)),
        ),
        (1, 0, 1)
    );
    assert_eq!(rt;
        (
            refused(CabinetBoard::question(32_768, 32_640)),
            refused(CabinetBoard::question(0, 0))
        ),
        (0, 0)
    );
    assert_eq!(rt;
        (
            refused(CabinetBoard::question(32_767, 0)),
            refused(CabinetBoard::question(32_770, 0))
        ),
        (1, 1)
    );
    assert_eq!(rt;
        (
            refused(CabinetBoard::question(0, 32_639)),
            refused(CabinetBoard::question(0, 32_642)),
            refused(CabinetBoard::question(1, 1)),
        ),
        (2, 2, 1)
    );
}

// A word at the last address below the page, its halves, and no touch of the page's own bytes.
#[test]
fn flat_board_ends_at_the_page(rt: HostRuntime) -> Result<(), Fail> {
    let mut bytes = [0u8; 65_536];
    let Ok(size) = FlatBoard::question(bytes.len()) else {
        return Err(Fail::new("65,536 bytes are refused"));
    };
    let mut board = FlatBoard::over(&mut bytes, size);
    assert_eq!(rt; board.write(0o177577, 0o123456), Some(()));
    assert_eq!(rt; board.write(0o177600, 0o123456), None);
    assert_eq!(rt;
        (
            board.read(0o177576),
            board.read(0o177577),
            board.read(0o177600),
        ),
        (Some(0o123456), Some(0o123456), None)
    );
    assert_eq!(rt;
        (
            board.write_byte(0, 0o21),
            board.write_byte(1, 0o42),
            board.write_byte(0o177777, 1),
        ),
        (Some(()), Some(()), None)
    );
    assert_eq!(rt;
        (board.read(0), board.read(1), board.read(2)),
        (Some(0o21021), Some(0o21021), Some(0))
    );
    assert_eq!(rt;
        (bytes[0], bytes[1], bytes[65_406], bytes[65_407]),
        (0o21, 0o42, 0o56, 0o247)
    );
    assert_eq!(rt; (bytes[65_408], bytes[65_535]), (0, 0));
    Ok(())
}

#[test]
fn cabinet_board_is_silent_between_ram_and_rom(rt: HostRuntime) -> Result<(), Fail> {
    let mut ram = [1u8, 2, 3, 4];
    let rom = [5u8, 6];
    let Ok(sizes) = CabinetBoard::question(ram.len(), rom.len()) else {
        return Err(Fail::new("even lengths are refused"));
    };
    let mut board = CabinetBoard::over(&mut ram, &rom, sizes);
    assert_eq!(rt;
        (board.read(2), board.read(4), board.read(0o77776)),
        (Some(0o2003), None, None)
    );
    assert_eq!(rt;
        (
            board.read(0o100000),
            board.read(0o100001),
            board.read(0o100002),
            board.read(0o177600),
        ),
        (Some(0o3005), Some(0o3005), None, None)
    );
    assert_eq!(rt;
        (
            board.write(3, 0o177777),
            board.write(4, 1),
            board.write(0o100000, 1),
        ),
        (Some(()), None, None)
    );
    assert_eq!(rt;
        (board.write_byte(1, 0), board.write_byte(0o100001, 1)),
        (Some(()), None)
    );
    assert_eq!(rt;
        (board.read(0), board.read(2), board.read(0o100000)),
        (Some(1), Some(0o177777), Some(0o3005))
    );
    Ok(())
}
