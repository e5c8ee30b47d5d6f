// The claim about the table of month starts, stated in specs/Table.antt.
ghost use Rattle.calendar.specs.Table.{TableKeepsCalendar};

// Each entry of the table is the first day of its month.
#[tactic(auto, using(crate::proofs::Months::month_rule))]
pub fn table_keeps_calendar()
    ensures { TableKeepsCalendar }
{}
