//! The block grammar: it defines which tree of blocks a text has. The grammar is in `specs/`, apart from any code that
//! reads a text. This source has the types that code and grammar share, and the laws.
#![tactic(auto)]

mod kind;
mod laws;

pub use kind::{AfterMarker, Container};
pub use laws::one_derivation;
