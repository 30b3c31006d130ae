// The panel, and a tap over it.
use bus::{Cabinet, LineBits, Panel, Request, Tap};
use std::test::Fail;

// The word of an answer; a time-out or a loss is none that a panel gives.
fn asked<C: Cabinet>(side: &mut C, request: Request) -> Option<u16> {
    side.ask(request).ok().flatten()
}

#[test]
fn panel_stores_and_shows(rt: HostRuntime) {
    let mut panel = Panel::new([7; 64], LineBits::default(), 0);
    assert_eq!(rt;
        (
            asked(&mut panel, Request::Lines),
            asked(&mut panel, Request::Vector),
        ),
        (Some(0), Some(0))
    );
    panel.set(
        [9; 64],
        LineBits {
            aclo: true,
            irq2: false,
            irq3: true,
            virq: true,
        },
        0o374,
    );
    assert_eq!(rt;
        (
            asked(&mut panel, Request::Lines),
            asked(&mut panel, Request::Vector),
        ),
        (Some(0o15), Some(0o374))
    );
    assert_eq!(rt;
        asked(&mut panel, Request::Write(0o177600, 0o1002)),
        Some(0)
    );
    assert_eq!(rt; asked(&mut panel, Request::WriteByte(0o177601, 3)), Some(0));
    assert_eq!(rt;
        asked(&mut panel, Request::WriteByte(0o177776, 0o377)),
        Some(0)
    );
    assert_eq!(rt; asked(&mut panel, Request::Init), Some(0));
    assert_eq!(rt;
        (
            panel.word(0o177600),
            panel.word(0o177602),
            panel.word(0o177776),
        ),
        (0o1402, 9, 0o377)
    );
    assert_eq!(rt; asked(&mut panel, Request::Read(0o177776)), Some(0o377));
}

#[test]
fn tap_notes_eleven(rt: HostRuntime) -> Result<(), Fail> {
    let mut panel = Panel::new([0; 64], LineBits::default(), 0);
    let mut tap = Tap::over(&mut panel);
    for word in 0..12 {
        assert_eq!(rt; asked(&mut tap, Request::Write(0o177600, word)), Some(0));
    }
    assert_eq!(rt; asked(&mut tap, Request::Read(0o177600)), Some(11));
    let notes = tap.notes();
    for (count, exchange) in notes.exchanges().iter().enumerate() {
        let Request::Write(_, word) = exchange.request else {
            return Err(Fail::new("a read is noted"));
        };
        assert_eq!(rt; usize::from(word), count);
    }
    assert_eq!(rt; notes.exchanges().len(), 11);
    tap.clear();
    assert_eq!(rt; tap.notes().exchanges().len(), 0);
    Ok(())
}
