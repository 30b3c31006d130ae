// Writing captures: a recorder packs the records of exchanges into the blocks of a lent buffer.
#![tactic(auto)]

pub mod encoding;
pub mod noting;
pub mod opening;
pub mod recorder;

pub use noting::NotNoted;
pub use opening::Refusal;
pub use recorder::Recorder;
