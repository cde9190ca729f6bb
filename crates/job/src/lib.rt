// From a job's bytes to a refusal or the job. `reading::read_job` is the one call; the others are its parts.
#![tactic(auto)]

mod bound;
mod bytes;
pub mod fault;
mod grow;
mod items;
mod judge;
mod last;
mod progress;
mod range;
pub mod reading;
mod table;
mod terms;
