// What a listing of a capture shows: the line of each record, the totals, and where a refusal was found.
#![tactic(auto)]

pub mod fields;
pub mod line;
pub mod place;
pub mod totals;

pub use line::record_line;
pub use place::{refused_block, refused_byte};
pub use totals::Totals;
