// The request lines, and the request that is accepted.
ghost use Rattle.std.specs.Prelude.{◌≡◌};
ghost use Rattle.arithmetic.specs.Status.{odd};
ghost use Rattle.processor.specs.Sampling.{lines_of, sampled, traces, masks, accepted};

use bus::LineBits;
use operands::{Processor, Requests};

// A request that interrupts the processor.
#[derive(Clone, Copy)]
pub(crate) enum Accepted {
    Aclo,
    Irq2,
    Irq3,
    Virq,
}

fn is_odd(n: u16) -> bool
    ensures { result ≡ odd n }
{
    n % 2 == 1
}

// The lines of a reply; none is active where it timed out. No `From`, since neither type is this crate's.
pub(crate) fn lines_in(reply: Option<u16>) -> LineBits
    ensures { result ≡ lines_of reply }
{
    let word = reply.unwrap_or_default();
    LineBits {
        aclo: is_odd(word),
        irq2: is_odd(word / 2),
        irq3: is_odd(word / 4),
        virq: is_odd(word / 8),
    }
}

// Takes note of the lines, and of those that have become active.
pub(crate) fn sample(p: &mut Processor, lines: LineBits)
    ensures { p.new ≡ sampled lines p.old }
{
    p.requests = Requests {
        aclo: p.requests.aclo || (lines.aclo && !p.lines.aclo),
        irq2: p.requests.irq2 || (lines.irq2 && !p.lines.irq2),
        irq3: p.requests.irq3 || (lines.irq3 && !p.lines.irq3),
    };
    p.lines = lines;
}

// Whether T is set.
pub(crate) fn is_tracing(psw: u16) -> bool
    ensures { result ≡ traces psw }
{
    is_odd(psw / 16)
}

// Whether P is set, which keeps out all requests but ACLO.
fn is_masking(psw: u16) -> bool
    ensures { result ≡ masks psw }
{
    is_odd(psw / 128)
}

// The first request that applies.
pub(crate) fn accept_first(p: &Processor) -> Option<Accepted>
    ensures { result ≡ accepted p.now }
{
    if p.requests.aclo {
        Some(Accepted::Aclo)
    } else if is_masking(p.psw) {
        None
    } else if p.requests.irq2 {
        Some(Accepted::Irq2)
    } else if p.requests.irq3 {
        Some(Accepted::Irq3)
    } else if p.lines.virq {
        Some(Accepted::Virq)
    } else {
        None
    }
}
