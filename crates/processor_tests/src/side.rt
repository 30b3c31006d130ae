// A cabinet side that has nothing on its page.
ghost use Rattle.std.specs.Prelude.{◌≡◌};
ghost use Rattle.processor_tests.specs.Sides.{stuck_means};

use bus::{Cabinet, Gone, Request};

// Its lines are quiet but for VIRQ; requests to the page and for a vector time out, or find it gone once it is unplugged.
#[derive(Clone, Copy)]
pub struct Stuck {
    pub virq: bool,
    pub unplugged: bool,
}

impl Cabinet for Stuck {
    ghost meaning = { λ s q. stuck_means s q };

    ghost becomes = { λ s q u. u ≡ s };

    fn ask(&mut self, request: Request) -> Result<Option<u16>, Gone> {
        match request {
            Request::Lines => Ok(Some(8 * u16::from(self.virq))),
            Request::Init => Ok(Some(0)),
            _ if self.unplugged => Err(Gone),
            _ => Ok(None),
        }
    }
}
