// What every cabinet side does, whatever its make.
ghost use Rattle.std.specs.Prelude.{◌≡◌, true, Result, Option, ℕ};
ghost use Rattle.bus.specs.declared.exchange.Request.{Request};
ghost use Rattle.bus.specs.declared.exchange.Gone.{Gone};
ghost use Rattle.bus.specs.Exchanges.{lawful_answer};

use crate::exchange::{Gone, Request};

// A cabinet side answers requests, lets them time out, or is gone. Its meaning is what it would answer now to each; what
// it becomes by a request, each make says of itself.
pub trait Cabinet {
    ghost meaning: { Self → Request → Result (Option ℕ) Gone };

    ghost becomes: { Self → Request → Self → Type 0 };

    // Answers by its meaning; the lines are 0 to 17 octal, writes and INIT are answered with 0, and lines and INIT never
    // time out.
    fn ask(&mut self, request: Request) -> Result<Option<u16>, Gone>
        ensures answered { result ≡ meaning self.old request }
        ensures lawful { lawful_answer request result ≡ true }
        ensures moved { becomes self.old request self.new };
}
