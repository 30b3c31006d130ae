// One step of the K1801VM1 over any board and any cabinet side.
#![tactic(auto)]

mod answer;
mod bench;
mod enter;
mod laws;
mod sample;
mod step;

pub use answer::Answer;
pub use bench::{Bench, Job, perform};
pub use laws::{ends_agree, step_laws};
