// Stations: a rig that records what a cabinet answers, and a replay of what it recorded.
#![tactic(auto)]

pub mod agreement;
pub mod call;

pub use call::{Call, End, Refusal, Run, Said};
