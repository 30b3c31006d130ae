// Requests to the cabinet side, and what it replies.

// What the processor asks of the cabinet side: accesses to the cabinet page, the request lines, the vector of a
// vectored interrupt, and INIT, which resets what is attached.
#[derive(Clone, Copy, PartialEq, Eq, Debug)]
pub enum Request {
    Read(u16),
    Write(u16, u16),
    WriteByte(u16, u8),
    Lines,
    Vector,
    Init,
}

// The cabinet side is no longer there: nothing was answered, and nothing timed out.
#[derive(Clone, Copy, PartialEq, Eq, Debug)]
pub struct Gone;

// A request with its reply: a word, 0 where the request has none to give, or `None` where it timed out.
#[derive(Clone, Copy, PartialEq, Eq, Debug)]
pub struct Exchange {
    pub request: Request,
    pub reply: Option<u16>,
}
