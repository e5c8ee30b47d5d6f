// The round trips of a trip file: claims about what `tripfile` reads and writes, stated in specs/Trips.antt.
#![tactic(auto)]

ghost use Rattle.roundtrip.specs.Trips.{WrittenReadsBack, ReadWritesAgain, ReadKeepsTrip};

// What was written reads back as the same plan and calls.
pub fn written_reads_back()
    ensures { WrittenReadsBack }
{}

// A file of just plan and calls that was read is written again byte by byte.
pub fn read_writes_again()
    ensures { ReadWritesAgain }
{}

// The plan and calls of any file that was read are accepted by the writer, and read back alike.
pub fn read_keeps_trip()
    ensures { ReadKeepsTrip }
{}
