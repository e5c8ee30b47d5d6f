// Claims about tables of caps and the search in them, stated in specs/Claims.antt, about the faults of a plan, in
// specs/Faults.antt, and about units past a limit, in specs/Charges.antt.
ghost use Rattle.tariff.specs.Claims.{RowsOfTable, SearchFindsCaps, RowsRead, RowsTellDays, RightTables};
ghost use Rattle.tariff.specs.Faults.{PlansAsBefore};
ghost use Rattle.tariff.specs.Charges.{AfterFirstLaws};

// Every list of rows has a table.
#[tactic(auto, using(crate::proofs::CapLaws::rows_of_table))]
pub fn rows_of_table()
    ensures { RowsOfTable }
{}

// The search from the last row back finds the caps of every day, in every table.
#[tactic(auto, using(crate::proofs::CapLaws::search_finds_caps))]
pub fn search_finds_caps()
    ensures { SearchFindsCaps }
{}

// Where days rise, the search reads the row that has begun last and those after it; where none has begun, all.
#[tactic(auto, using(crate::proofs::CapLaws::rows_read_tell))]
pub fn rows_read()
    ensures { RowsRead }
{}

// What holds of the caps of every row holds of those of every day.
#[tactic(auto, using(crate::proofs::CapLaws::rows_tell_days))]
pub fn rows_tell_days()
    ensures { RowsTellDays }
{}

// What a right table tells; the built-in one is right.
#[tactic(auto, using(crate::proofs::Tables::right_tables))]
pub fn right_tables()
    ensures { RightTables }
{}

// With 02, 4/13 the plans accepted are those of 01, and 17 and 18 are what 01 told as 1.
#[tactic(auto, using(crate::proofs::Faults::plans_as_before))]
pub fn plans_as_before()
    ensures { PlansAsBefore }
{}

// Units past a limit: all of them past 0 or once it is reached, none up to it, as many for a record split in two.
#[tactic(auto, using(crate::proofs::ChargeLaws::after_first_laws))]
pub fn after_first_laws()
    ensures { AfterFirstLaws }
{}
