//! Runs over rows made by hand, and workers that are held up at a gate. Each test has the same
//! result in every schedule.

mod dealt;
mod runs;
mod sharing;
