//! The tests, by what they call.

mod calls;
mod deep;
mod sequences;
