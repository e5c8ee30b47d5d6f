// Claims about files and texts, stated in specs/Trips.antt.
ghost use Rattle.conversion.specs.Trips.{ExportImportsAgain, ImportExportsAgain};

// A file of just plan and calls, in that order, that was exported as text is imported again byte by byte.
pub fn export_imports_again()
    ensures { ExportImportsAgain }
{}

// A text that was imported is exported again byte by byte.
pub fn import_exports_again()
    ensures { ImportExportsAgain }
{}
