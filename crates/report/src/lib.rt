// The figures that the program `statement` prints, from the bytes of a trip file (statement-1, statement-2).
#![tactic(auto)]

ghost use Rattle.std.specs.Prelude.{◌≡◌, Ok};
ghost use Rattle.tripfile.specs.Reading.{read_of};
ghost use Rattle.report.specs.Handed.{ReaderHandsOutCalls};
ghost use Rattle.report.specs.Statement.{figures_with, figures_of, report_of, trip_run};

use state::State;
use tariff::{Allowance, Refusal};
use tripfile::Trip;

// The nine figures.
#[derive(Clone, Copy)]
pub struct Figures {
    pub day: u64,
    pub paid: u64,
    pub credit: u64,
    pub home: u64,
    pub extra: u64,
    pub limit: Allowance,
    pub roamed: u64,
    pub past: u64,
    pub refused: usize,
}

// The figures of an account after its calls, of which so many were refused.
#[tactic(auto, unfolding(crate::specs::Statement::figures_with))]
pub fn show_figures(s: State, refused: usize) -> Figures
    ensures { result ≡ figures_with s refused }
{
    Figures {
        day: s.day,
        paid: s.money.paid,
        credit: s.money.credit,
        home: s.money.homecharges,
        extra: s.money.surcharges,
        limit: s.quota.allowance,
        roamed: s.quota.roamed,
        past: s.meters.surcharged.kb,
        refused,
    }
}

// A reader over the calls section of a trip file that was read hands out the file's calls in order, and then none.
pub fn reader_hands_out_calls()
    ensures { ReaderHandsOutCalls }
{}

// The figures after all calls of a trip file that was read, on an account that is opened under its plan. The log is in
// one place, and no whole account is held.
fn trip_figures(file: &[u8], trip: Trip) -> Figures
    requires { read_of file.now ≡ Ok trip }
    ensures { result ≡ figures_of (trip_run file.now trip.plan) }
{
    let opened = account::open_with(trip.plan);
    let mut log = presence::log::log_empty();
    let t = replay::section_with(sections::part(file, 2), opened.state, &mut log);
    show_figures(t.state, t.refused)
}

// The figures that the program prints of a trip file's bytes, or why it is a bad file.
#[tactic(auto, unfolding(crate::specs::Statement::report_of, crate::specs::Statement::report_on))]
pub fn statement_of(file: &[u8]) -> Result<Figures, Refusal>
    ensures { result ≡ report_of file.now }
{
    let trip = tripfile::reading::read(file)?;
    Ok(trip_figures(file, trip))
}
