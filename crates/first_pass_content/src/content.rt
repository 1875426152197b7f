//! The content of a chain.

ghost use Rattle.first_pass_content.specs.Content.{byte_at, bytes_of, content, edge, range_in};
ghost use Rattle.first_pass_content.specs.Runs.{AreAllRuns, HasPlace, content_in, end_of, start_of};
ghost use Rattle.std.specs.Cow.{cow_slice_items};
ghost use Rattle.std.specs.Prelude.{◌≡◌, ◌∷◌, ◌++◌, [], ◌<◌, ◌≤◌, length, nat_le, IfOk};

use crate::builder::begin_content;
use crate::run::Run;
use first_pass_items::item::Item;
use std::alloc::{AllocError, Global};
use std::borrow::CowSlice;
use std::marker::Model;
use std::ops::Range;

/// The content of a chain: its bytes, each with its range in the text. If the bytes stand in the text one after the
/// other, they are borrowed from it, and no memory is requested.
#[derive(Drop)]
pub struct Content<'t> {
    bytes: CowSlice<'t, u8>,
    // The runs before the last; none is empty.
    runs: Vec<Run>,
    last: Run,
}

impl<'t> Model for Content<'t> {
    ghost use Rattle.first_pass_content.specs.Content.{ContentByte};
    ghost use Rattle.first_pass_content.specs.Runs.{AreAllRuns, content_in};
    ghost use Rattle.std.specs.Cow.{cow_slice_items};
    ghost use Rattle.std.specs.Prelude.{List, [], ◌∷◌, ◌++◌};

    ghost Value = { List ContentByte };

    ghost view = { λ c. content_in (cow_slice_items c.bytes) (c.runs.items ++ c.last ∷ []) };

    ghost invariant = { λ c. AreAllRuns (cow_slice_items c.bytes) c.runs.items c.last };
}

/// Returns the content of the chain with these tokens of a text. Fails only if an allocation fails.
pub fn content_of<'t>(
    alloc: Global,
    text: &'t [u8],
    tokens: &[(usize, Item)],
) -> Result<Content<'t>, AllocError>
    ensures { IfOk result (λ made. made ≡ content text.now tokens.now) }
{
    let mut builder = begin_content(alloc);
    let mut rest = tokens;
    while let Some((node, following)) = rest.split_first() {
        builder.add_token(text, node.1, following)?;
        rest = following;
    }
    builder.finish(text)
}

impl<'t> Content<'t> {
    // The content with these bytes and runs.
    pub(crate) fn new(bytes: CowSlice<'t, u8>, runs: Vec<Run>, last: Run) -> Content<'t>
        requires { AreAllRuns (cow_slice_items bytes) runs.items last }
        ensures { result ≡ content_in (cow_slice_items bytes.entry) (runs.items ++ last ∷ []) }
    {
        Content { bytes, runs, last }
    }

    /// Returns the bytes.
    pub fn bytes(&self) -> &[u8]
        ensures { result.now ≡ bytes_of self.now }
    {
        self.bytes.as_slice()
    }

    /// Returns the range in the text of the part of the content from one place up to another. That of an empty part is
    /// empty, at the end of the byte before it, or at the start of the content.
    pub fn range_of(&self, from: usize, to: usize) -> Range<usize>
        requires order { from ≤ to }
        requires within { to ≤ length self.now }
        ensures { result ≡ range_in self.now from to }
    {
        if from < to {
            let start = self.run_at(from).start_of(from);
            return start..self.run_at(to - 1).end_of(to - 1);
        }
        let at = self.edge(from);
        at..at
    }

    // The offset of an empty part at a place.
    fn edge(&self, place: usize) -> usize
        requires { place ≤ length self.now }
        ensures { result ≡ edge self.now place }
    {
        if 0 < place {
            return self.run_at(place - 1).end_of(place - 1);
        }
        if self.bytes().is_empty() {
            0
        } else {
            self.run_at(0).start_of(0)
        }
    }

    // The run with this place.
    fn run_at(&self, place: usize) -> Run
        requires { place < length self.now }
        ensures run { HasPlace result place }
        ensures start { start_of result place ≡ (byte_at self.now place).start }
        ensures end { end_of result place ≡ (byte_at self.now place).«end» }
    {
        if self.last.place <= place {
            return self.last;
        }
        let index = self.runs.partition_point(
            |run: &Run| -> bool
                ensures { result ≡ nat_le run.now.past place }
            { run.past <= place },
        );
        self.runs[index]
    }
}
