//! How much the rest of a text is expected to hold, by the part that was read.

use first_pass_lines::sample::Sample;
use std::test::Fail;

#[test]
fn expects_as_many_in_each_part(rt: HostRuntime) -> Result<(), Fail> {
    for (read, rest, seen, more) in [
        // Nine more parts, or a little more.
        (64, 576, 3, 27),
        (64, 577, 3, 30),
        (64, 576, 0, 0),
        // All of the text was read, or nothing of it.
        (64, 0, 3, 0),
        (0, 9, 3, 27),
        // A number that a `usize` can't hold.
        (1, usize::MAX, 3, usize::MAX),
    ] {
        assert_eq!(rt; Sample { read, rest }.expected_more(seen), more);
    }
    Ok(())
}
