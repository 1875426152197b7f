//! Runs of a content.

ghost use Rattle.first_pass_content.specs.Runs.{HasPlace, empty_run, end_of, start_of};
ghost use Rattle.std.specs.Prelude.{◌≡◌};

/// A run of a content: bytes that stand in the text one after the other, or one newline in place of another line
/// ending. It has the places from `place` up to `past`, and the range of the text from `start` to `end`.
#[derive(Clone, Copy, PartialEq, Eq)]
pub(crate) struct Run {
    pub place: usize,
    pub past: usize,
    pub start: usize,
    pub end: usize,
}

impl Run {
    // The offset at which the byte at a place of the run begins.
    pub(crate) fn start_of(self, place: usize) -> usize
        requires { HasPlace self place }
        ensures { result ≡ start_of self place }
    {
        self.start + (place - self.place)
    }

    // The offset at which the byte at a place of the run ends.
    pub(crate) fn end_of(self, place: usize) -> usize
        requires { HasPlace self place }
        ensures { result ≡ end_of self place }
    {
        self.end - (self.past - 1 - place)
    }
}

// The run without bytes at a place and an offset.
pub(crate) fn empty_run(place: usize, start: usize) -> Run
    ensures { result ≡ empty_run place start }
{
    Run {
        place,
        past: place,
        start,
        end: start,
    }
}
