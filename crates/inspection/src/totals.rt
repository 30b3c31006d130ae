// Counts of the records of a capture.
ghost use Rattle.std.specs.Prelude.{◌≡◌};
ghost use Rattle.capture.specs.Handed.{shown};
ghost use Rattle.inspection.specs.Tallies.{counted, more};

use crate::fields::{Fields, fields_of};
use capture::{Kind, Record};

// How many records there are of each kind, and how many timed out. No capture has enough to reach the largest count.
#[derive(Clone, Copy, Default)]
pub struct Totals {
    pub reads: u32,
    pub writes: u32,
    pub byte_writes: u32,
    pub lines: u32,
    pub vectors: u32,
    pub inits: u32,
    pub timed_out: u32,
}

// One more, up to the largest count.
fn count_one(count: &mut u32)
    ensures { count.new ≡ more count.old }
{
    *count = count.saturating_add(1);
}

impl Totals {
    // Counts one record more.
    pub fn count(&mut self, rec: Record)
        ensures { self.new ≡ counted (shown rec.entry) self.old }
    {
        let Fields { kind, answered, .. } = fields_of(rec);
        match kind {
            Kind::Read => count_one(&mut self.reads),
            Kind::Write => count_one(&mut self.writes),
            Kind::WriteByte => count_one(&mut self.byte_writes),
            Kind::Lines => count_one(&mut self.lines),
            Kind::Vector => count_one(&mut self.vectors),
            Kind::Init => count_one(&mut self.inits),
        }
        if !answered {
            count_one(&mut self.timed_out);
        }
    }
}
