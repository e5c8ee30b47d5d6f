// A plan and its calls, read from a file and written to a buffer (file-7 to file-9, write-1, write-2).
#![tactic(auto)]

pub mod calls;
pub mod reading;
pub mod writing;

use tariff::Plan;

// What is read of a file: the plan with the number of calls, which stay in the file.
#[derive(Clone, Copy)]
pub struct Trip {
    pub plan: Plan,
    pub calls: usize,
}
