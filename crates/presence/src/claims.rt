// Claims about the log as it is kept, and about windows of days, stated in specs/Claims.antt, and about the states of
// the services, in specs/Service.antt.
ghost use Rattle.presence.specs.Claims.{LogKeepsDays, NumbersAreOfDays, FullWindows, OffDaysOnly};
ghost use Rattle.presence.specs.Service.{StateLaws};

// Joining a day to the log's numbers joins it to its days; an empty log has empty days.
#[tactic(auto, using(crate::proofs::Claimed::log_keeps_days))]
pub fn log_keeps_days()
    ensures { LogKeepsDays }
{}

// The numbers of a log with proper marks are those of its days.
#[tactic(auto, using(crate::proofs::Claimed::numbers_are_of_days))]
pub fn numbers_are_of_days()
    ensures { NumbersAreOfDays }
{}

// In a full window without off days, 62 zone days of 123, and 8 of 15, decide.
#[tactic(auto, using(crate::proofs::Prevalence::full_windows))]
pub fn full_windows()
    ensures { FullWindows }
{}

// In a window of off days no service is prevalent.
#[tactic(auto, using(crate::proofs::Prevalence::off_days_only))]
pub fn off_days_only()
    ensures { OffDaysOnly }
{}

// Whatever the days: Clear stays while fewer than 123 are logged, Warned counts to 14, Clear never becomes Surcharged.
#[tactic(auto, using(crate::proofs::Claimed::state_laws))]
pub fn state_laws()
    ensures { StateLaws }
{}
