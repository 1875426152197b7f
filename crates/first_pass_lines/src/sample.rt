//! How much the rest of a text holds, judged by the part that was read.

ghost use Rattle.first_pass_lines.specs.Samples.{parts_of};
ghost use Rattle.std.specs.Prelude.{◌≡◌, ◌<◌, ◌-◌, ◌*◌, ◌^◌, max, min};

/// How much of a text was read.
#[derive(Clone, Copy)]
pub struct Sample {
    /// The number of bytes that were read.
    pub read: usize,
    /// The number of bytes after them.
    pub rest: usize,
}

impl Sample {
    /// Returns an estimate, seldom too low, of how many are in the rest of the text, if it is like the part that was
    /// read and `seen` are in that part. The rest is divided into parts of that size; the last one counts as a full one
    /// (this project).
    pub fn expected_more(&self, seen: usize) -> usize
        ensures { result ≡ min (seen * parts_of (max self.now.read 1) self.now.rest) (2 ^ 64 - 1) }
    {
        seen.saturating_mul(parts_of(self.read.max(1), self.rest))
    }
}

// How many parts of a size these bytes fill.
fn parts_of(size: usize, bytes: usize) -> usize
    requires { 0 < size }
    ensures { result ≡ parts_of size bytes }
{
    let full = bytes / size;
    if bytes % size == 0 { full } else { full + 1 }
}
