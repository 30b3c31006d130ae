// Noting exchanges, and giving them back.
ghost use Rattle.std.specs.Prelude.{◌≡◌, []};
ghost use Rattle.bus.specs.Taps.{listed, noted};

use crate::exchange::{Exchange, Request};
use crate::notes::{Notes, PLACES};

impl Notes {
    // No exchange is noted yet.
    pub fn new() -> Notes
        ensures { listed result ≡ [] }
    {
        let blank = Exchange {
            request: Request::Lines,
            reply: Some(0),
        };
        Notes {
            table: [blank; PLACES],
            count: 0,
        }
    }

    // Notes an exchange behind the others, and omits it where there is no place left.
    pub fn note(&mut self, exchange: Exchange)
        ensures { listed self.new ≡ noted (listed self.old) exchange }
    {
        if self.count < PLACES {
            self.table[self.count] = exchange;
            self.count += 1;
        }
    }

    // The exchanges noted, in the order in which they were made.
    pub fn exchanges(&self) -> &[Exchange]
        ensures { result.now ≡ listed self.now }
    {
        &self.table[..self.count]
    }
}
