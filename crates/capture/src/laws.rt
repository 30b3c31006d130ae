// What holds of every capture and of every exchange, each law in the contract of a call.
ghost use Rattle.capture.specs.Exchanges.{ExchangesAreRecords};
ghost use Rattle.capture.specs.Laws.{CaptureLaws};
ghost use Rattle.capture.specs.Worked.{WorkedBlocks};

// Records laid out in any way are read back, and only they count; what is read is lawful; every block adds up to 0.
pub fn captures_read_back()
    ensures { CaptureLaws }
{}

// Lawful exchanges and lawful records stand one for one.
pub fn exchanges_are_records()
    ensures { ExchangesAreRecords }
{}

// A few blocks worked out byte by byte.
pub fn worked_blocks_stand()
    ensures { WorkedBlocks }
{}
