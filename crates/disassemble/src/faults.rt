// Why nothing, or no more, is listed.
use image::{AddressFault, CountFault, Refusal};
use std::io;
use thiserror::Error;

#[derive(Debug, Drop, Error)]
pub enum Fault {
    // There are more than two arguments.
    #[error("too many arguments: at most an address and a count are expected")]
    Arguments,
    #[error("{0}: an even octal number from 0 to 177776 is expected first")]
    Address(#[from] AddressFault),
    #[error("{0}: a decimal number from 1 to 32768 is expected second")]
    Count(#[from] CountFault),
    // The image cannot be read.
    #[error("board.img cannot be read: {0}")]
    Unreadable(io::Error),
    // The file is no image; it has so many bytes.
    #[error("refused {number}: board.img has {1} bytes, and 65536 are expected", number = .0.number())]
    Refused(Refusal, usize),
    // The arguments cannot be had, or a line cannot be written.
    #[error(transparent)]
    Failed(#[from] io::Error),
}
