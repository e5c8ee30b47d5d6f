// Claims about lines and texts, stated in specs/Trips.antt.
ghost use Rattle.textlines.specs.Trips.{RightIsLine, LineIsRight, ExportedReadsBack, ReadExportsAgain};

// A line that passes for one of the form is the line of a call, and of the one that it is read as.
pub fn right_is_line()
    ensures { RightIsLine }
{}

// The line of every call that has one passes, and is read as that call.
pub fn line_is_right()
    ensures { LineIsRight }
{}

// What is exported reads back as the same calls.
pub fn exported_reads_back()
    ensures { ExportedReadsBack }
{}

// A text that was read is exported again byte by byte.
pub fn read_exports_again()
    ensures { ReadExportsAgain }
{}
