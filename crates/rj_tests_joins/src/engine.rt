//! Stripes typed by hand, workers held up at a gate, a hash that counts, and calls that no program makes.

mod calls;
mod gates;
mod joins;
mod stripes;
