//! The exchange in callers' own threads. Each test ends by itself and has the same result in every
//! schedule.

mod crossing;
mod passing;
mod seats;
