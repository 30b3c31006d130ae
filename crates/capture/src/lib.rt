// Captures: cabinet exchanges as records in blocks of 512 bytes. Here bytes are checked, and what passed is read.
#![tactic(auto)]

pub mod block;
pub mod checks;
pub mod feed;
pub mod kind;
pub mod laws;
pub mod reading;
pub mod record;
pub mod refusal;

pub use checks::{check, check_block, check_record, checksum};
pub use feed::Feed;
pub use kind::Kind;
pub use laws::{captures_read_back, exchanges_are_records, worked_blocks_stand};
pub use record::Record;
pub use refusal::Refusal;
