// The tap, which stands over a cabinet side and notes what goes through it.
ghost use Rattle.std.specs.Prelude.{◌≡◌, []};
ghost use Rattle.bus.specs.Taps.{listed, noting};

use crate::cabinet::Cabinet;
use crate::exchange::{Exchange, Gone, Request};
use crate::notes::Notes;

// Answers as the side below it does, and notes the exchanges since it was made or cleared: eleven at most, and none for a
// request that finds the side gone.
#[derive(Drop)]
pub struct Tap<'a, C: Cabinet> {
    side: &'a mut C,
    notes: Notes,
}

impl<'a, C: Cabinet> Tap<'a, C> {
    // A tap over a side, with nothing noted.
    pub fn over(side: &'a mut C) -> Tap<'a, C>
        ensures below { (result.side.now ≡ side.old) × (result.side.ghost_name ≡ side.entry.ghost_name) }
        ensures blank { listed result.notes ≡ [] }
    {
        Tap {
            side,
            notes: Notes::new(),
        }
    }

    // Forgets what was noted, and leaves the side as it is.
    pub fn clear(&mut self)
        ensures below { (self.new.side.now ≡ self.old.side.now) × (self.new.side.ghost_name ≡ self.old.side.ghost_name) }
        ensures blank { listed self.new.notes ≡ [] }
    {
        self.notes = Notes::new();
    }

    // What was noted since then.
    pub fn notes(&self) -> Notes
        ensures { result ≡ self.now.notes }
    {
        self.notes
    }
}

impl<C: Cabinet> Cabinet for Tap<'_, C> {
    ghost meaning = { λ t. C.Cabinet.meaning t.side.now };

    ghost becomes = { λ t q u. C.Cabinet.becomes t.side.now q u.side.now × (listed u.notes ≡ noting (listed t.notes) q (C.Cabinet.meaning t.side.now q)) × (u.side.ghost_name ≡ t.side.ghost_name) };

    fn ask(&mut self, request: Request) -> Result<Option<u16>, Gone> {
        let answer = self.side.ask(request);
        if let Ok(reply) = answer {
            self.notes.note(Exchange { request, reply });
        }
        answer
    }
}

// One request through a tap: the side's own answer and next state, and notes of just that exchange.
pub fn ask_noted<C: Cabinet>(side: &mut C, request: Request) -> (Result<Option<u16>, Gone>, Notes)
    ensures answered { result.0 ≡ C.Cabinet.meaning side.old request }
    ensures moved { C.Cabinet.becomes side.old request side.new }
    ensures noted { listed result.1 ≡ noting [] request result.0 }
{
    let mut tap = Tap::over(side);
    let answer = tap.ask(request);
    (answer, tap.notes())
}
