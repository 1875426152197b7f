//! The content of the first tokens of a chain, while the others are read.

ghost use Rattle.first_pass_content.specs.Building.{IsBuilt, built};
ghost use Rattle.first_pass_content.specs.Content.{byte_in, copied, gap_content, newline_of, token_content};
ghost use Rattle.first_pass_content.specs.Parts.{part};
ghost use Rattle.first_pass_content.specs.Runs.{AreRuns, content_in};
ghost use Rattle.first_pass_items.specs.Bytes.{line_feed};
ghost use Rattle.std.specs.Prelude.{◌≡◌, ◌++◌, [], ◌∷◌, ℕ, List, length, IfOk, OnOk, true};

use crate::content::Content;
use crate::parts::{gap, is_break, line_end_of, part_of};
use crate::run::{Run, empty_run};
use first_pass_items::item::Item;
use first_pass_reports::references::label::bytes_between;
use std::alloc::{AllocError, Global};
use std::borrow::CowSlice;
use std::ops::Range;

// The content so far. The last run stands in the text and may grow: if there is no other, no byte is copied.
#[derive(Drop)]
pub(crate) struct ContentBuilder {
    // The bytes of the runs before the last.
    bytes: Vec<u8>,
    // The runs before the last; none is empty.
    runs: Vec<Run>,
    last: Run,
}

// No content.
pub(crate) fn begin_content(alloc: Global) -> ContentBuilder
    ensures sound { (text : List ℕ) → IsBuilt text result }
    ensures value { (text : List ℕ) → built text result ≡ [] }
{
    ContentBuilder {
        bytes: Vec::new(alloc),
        runs: Vec::new(alloc),
        last: empty_run(0, 0),
    }
}

impl ContentBuilder {
    // The number of bytes so far.
    pub(crate) fn len(&self) -> usize
        ensures { (text : List ℕ) → IsBuilt text self.now → result ≡ length (built text self.now) }
    {
        self.last.past
    }

    // Adds the content of a token, and what is content between it and the next one.
    pub(crate) fn add_token(
        &mut self,
        text: &[u8],
        token: Item,
        following: &[(usize, Item)],
    ) -> Result<(), AllocError>
        requires { IsBuilt text.now self.old }
        ensures sound { OnOk result (IsBuilt text.now self.new) }
        ensures value { OnOk result (built text.now self.new
            ≡ built text.now self.old ++ (token_content text.now token ++ gap_content text.now token following.now)) }
    {
        self.add_own(text, token)?;
        self.add_gap(text, token, following)
    }

    // Adds the content of a token.
    pub(crate) fn add_own(&mut self, text: &[u8], token: Item) -> Result<(), AllocError>
        requires { IsBuilt text.now self.old }
        ensures sound { OnOk result (IsBuilt text.now self.new) }
        ensures value { OnOk result (built text.now self.new ≡ built text.now self.old ++ token_content text.now token) }
    {
        self.add_part(text, part_of(text, token))?;
        self.add_line_end(text, token)
    }

    // Adds what is content between a token and the next one.
    pub(crate) fn add_gap(
        &mut self,
        text: &[u8],
        token: Item,
        following: &[(usize, Item)],
    ) -> Result<(), AllocError>
        requires { IsBuilt text.now self.old }
        ensures sound { OnOk result (IsBuilt text.now self.new) }
        ensures value { OnOk result (built text.now self.new
            ≡ built text.now self.old ++ gap_content text.now token following.now) }
    {
        match following {
            [] => Ok(()),
            [(_, next), ..] => self.add_part(text, gap(text, token, *next)),
        }
    }

    // Adds the newline of a break.
    fn add_line_end(&mut self, text: &[u8], token: Item) -> Result<(), AllocError>
        requires { IsBuilt text.now self.old }
        ensures sound { OnOk result (IsBuilt text.now self.new) }
        ensures value { OnOk result (built text.now self.new ≡ built text.now self.old ++ newline_of text.now token) }
    {
        if !is_break(token.body) {
            return Ok(());
        }
        let start = line_end_of(text, token);
        if is_newline(text, start, token.end) {
            return self.add_part(text, start..token.end);
        }
        self.add_newline(text, start, token.end)
    }

    // Adds a part of the text.
    fn add_part(&mut self, text: &[u8], part: Range<usize>) -> Result<(), AllocError>
        requires { IsBuilt text.now self.old }
        ensures sound { OnOk result (IsBuilt text.now self.new) }
        ensures value { OnOk result (built text.now self.new ≡ built text.now self.old ++ copied text.now part) }
    {
        let end = part.end.min(text.len());
        if end <= part.start {
            return Ok(());
        }
        self.stop_at(text, part.start)?;
        self.last.past += end - part.start;
        self.last.end = end;
        Ok(())
    }

    // Adds a newline in place of a line ending.
    fn add_newline(&mut self, text: &[u8], start: usize, end: usize) -> Result<(), AllocError>
        requires { IsBuilt text.now self.old }
        ensures sound { OnOk result (IsBuilt text.now self.new) }
        ensures value { OnOk result (built text.now self.new
            ≡ built text.now self.old ++ byte_in line_feed start end ∷ []) }
    {
        self.close_run(text)?;
        let place = self.last.past;
        let past = place + 1;
        self.bytes.push(b'\n')?;
        self.runs.push(Run {
            place,
            past,
            start,
            end,
        })?;
        self.last = empty_run(past, end);
        Ok(())
    }

    // Makes the last run end at an offset: begins another one there, unless it does.
    fn stop_at(&mut self, text: &[u8], at: usize) -> Result<(), AllocError>
        requires { IsBuilt text.now self.old }
        ensures sound { OnOk result (IsBuilt text.now self.new) }
        ensures value { OnOk result (built text.now self.new ≡ built text.now self.old) }
        ensures there { OnOk result (self.new.last.«end» ≡ at) }
    {
        if self.last.end == at {
            return Ok(());
        }
        self.close_run(text)?;
        self.last = empty_run(self.last.past, at);
        Ok(())
    }

    // Copies the bytes of the last run, unless it is empty.
    fn close_run(&mut self, text: &[u8]) -> Result<(), AllocError>
        requires { IsBuilt text.now self.old }
        ensures last { OnOk result (self.new.last ≡ self.old.last) }
        ensures runs { OnOk result (AreRuns 0 self.new.runs.items self.old.last.past) }
        ensures size { OnOk result (self.old.last.past ≡ length self.new.bytes.items) }
        ensures value { OnOk result (content_in self.new.bytes.items self.new.runs.items ≡ built text.now self.old) }
    {
        let last = self.last;
        if last.past <= last.place {
            return Ok(());
        }
        self.bytes
            .extend_from_slice(bytes_between(text, last.start, last.end))?;
        self.runs.push(last)?;
        Ok(())
    }

    // The whole content.
    pub(crate) fn finish<'t>(self, text: &'t [u8]) -> Result<Content<'t>, AllocError>
        requires { IsBuilt text.now self }
        ensures { IfOk result (λ content. content ≡ built text.now self) }
    {
        let ContentBuilder {
            mut bytes,
            runs,
            last,
        } = self;
        let part = bytes_between(text, last.start, last.end);
        if runs.is_empty() {
            return Ok(Content::new(CowSlice::Borrowed(part), runs, last));
        }
        bytes.extend_from_slice(part)?;
        Ok(Content::new(CowSlice::Owned(bytes), runs, last))
    }
}

// Whether a newline, and nothing else, is between two offsets.
fn is_newline(text: &[u8], start: usize, end: usize) -> bool
    ensures { result ≡ true → copied text.now (part start end)
        ≡ byte_in line_feed start end ∷ [] }
{
    start < text.len() && end == start + 1 && text[start] == b'\n'
}
