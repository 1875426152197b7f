//! Random texts and options.

use crate::soak::snippets::SNIPPETS;
use bitflags::Flags;
use first_pass_items::option_set::Options;
use rand_core::Rng;
use rand_pcg::Pcg32;
use std::alloc::{AllocError, Global};

// The greatest number of snippets in a text.
const MOST: u32 = 30;

/// Returns one or more random snippets.
pub fn random_pieces(alloc: Global, rng: &mut Pcg32) -> Result<Vec<&'static str>, AllocError> {
    let mut pieces = Vec::new(alloc);
    for _ in 0..=rng.next_u32() % MOST {
        let place = rng.next_u32() as usize % SNIPPETS.len();
        pieces.push(SNIPPETS[place])?;
    }
    Ok(pieces)
}

/// Returns all options, all except footnotes in the old form, or any.
pub fn random_options(rng: &mut Pcg32) -> Options {
    match rng.next_u32() % 4 {
        0 => Options::all(),
        1 => Options::all()
            .difference(Options::ENABLE_OLD_FOOTNOTES)
            .union(Options::ENABLE_FOOTNOTES),
        _ => Options::from_bits_truncate(rng.next_u32()),
    }
}
