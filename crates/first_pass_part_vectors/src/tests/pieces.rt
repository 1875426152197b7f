//! The fewest pieces for which a property holds.

use first_pass_cases::pieces::{joined, remove_pieces};
use std::alloc::{AllocError, Global};
use std::test::Fail;

// The remaining pieces, if the text has to keep two signs, one before the other.
fn rest_of(alloc: Global, given: &[&str]) -> Result<String, AllocError> {
    let mut pieces = Vec::new(alloc);
    pieces.extend_from_slice(given)?;
    remove_pieces(alloc, &mut pieces, |text: &str| {
        Ok(match text.split_once('>') {
            Some((_, following)) => following.contains('-'),
            None => false,
        })
    })?;
    joined(alloc, pieces.as_slice())
}

#[test]
fn pieces_are_removed(rt: HostRuntime) -> Result<(), Fail> {
    assert!(rt; rest_of(rt.alloc(), &["a", "- ", ">", "b", ">>", "-", "c", "-"])?.as_str() == ">-");
    assert!(rt; rest_of(rt.alloc(), &["a->-b"])?.as_str() == "a->-b");
    assert!(rt; rest_of(rt.alloc(), &[])?.is_empty());
    Ok(())
}
