// The meter for C programs: include/meter.h. Each function calls the one of crate `meter` that has its name, and promises
// the same.
#![tactic(auto)]

pub mod boxes;
pub mod calls;
pub mod caps;
pub mod files;
pub mod opening;
pub mod texts;
