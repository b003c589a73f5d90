//! `ahost` as a library: it asks for the addresses of names over a given network, lets callbacks ask further, and puts
//! what was found as a page of text.
#![tactic(auto)]

mod asking;
mod loading;
mod outcome;
mod page;
mod putting;
mod reporting;
mod resolving;
mod running;
mod setting;
mod summary;
mod task;

pub use asking::leave;
pub use loading::prepare;
pub use outcome::Outcome;
pub use putting::tell;
pub use reporting::{Report, report_for};
pub use run_end::Ended;
pub use running::{count_names, run, run_boxed, run_returning_bodies};
pub use setting::read_setting;
