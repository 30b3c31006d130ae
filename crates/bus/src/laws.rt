// What users of boards and of accesses can rely on, as laws that the check proves.
ghost use Rattle.bus.specs.Promises.{Flat, OneExchange, RamAndRom, Writes};

// On any board what was written is read, other words stay, and a write that times out changes nothing.
pub fn writes_are_kept()
    ensures { Writes }
{}

// A flat board is open everywhere below the page, and its last 128 bytes stay as they are.
pub fn flat_boards_are_open()
    ensures { Flat }
{}

// A cabinet board is open in RAM, fixed in ROM and silent elsewhere.
pub fn cabinet_boards_hold_ram_and_rom()
    ensures { RamAndRom }
{}

// An access at one address makes at most one exchange.
pub fn accesses_make_one_exchange()
    ensures { OneExchange }
{}
