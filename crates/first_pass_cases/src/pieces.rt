//! Texts made of pieces, and the fewest pieces for which a property still holds.

use std::alloc::{AllocError, Global};

/// Returns the pieces joined.
pub fn joined(alloc: Global, pieces: &[&str]) -> Result<String, AllocError> {
    let mut text = String::new(alloc);
    for piece in pieces {
        text.push_str(piece)?;
    }
    Ok(text)
}

/// Removes pieces while the property holds for the rest, until no single piece can be removed.
pub fn remove_pieces<F>(alloc: Global, pieces: &mut Vec<&str>, is_true: F) -> Result<(), AllocError>
where
    F: Fn(&str) -> Result<bool, AllocError> + Drop,
    requires callable { F.IsAlwaysCallable is_true }
{
    for _ in 0..pieces.len() {
        if !remove_some(alloc, pieces, &is_true)? {
            break;
        }
    }
    Ok(())
}

// Tries each piece once, the last one first; returns whether any was removed.
fn remove_some<F>(alloc: Global, pieces: &mut Vec<&str>, is_true: &F) -> Result<bool, AllocError>
where
    F: Fn(&str) -> Result<bool, AllocError> + Drop,
    requires callable { F.IsAlwaysCallable is_true.now }
{
    let mut removed = false;
    for place in (0..pieces.len()).rev() {
        if place < pieces.len() {
            let piece = pieces.remove(place);
            if is_true(joined(alloc, pieces.as_slice())?.as_str())? {
                removed = true;
            } else {
                pieces.insert(place, piece)?;
            }
        }
    }
    Ok(removed)
}
