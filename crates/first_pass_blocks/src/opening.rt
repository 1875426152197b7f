//! The containers that begin in a line (CommonMark 5).

ghost use Rattle.first_pass_blocks.specs.Progress.{IsAtPlace, KnowsNext, ReadsBlock, ReadsEntered};
ghost use Rattle.first_pass_blocks.specs.Views.{front_of, state_of, source_text};
ghost use Rattle.first_pass_containers.specs.Starts.{last_at, IsAfterMarker};
ghost use Rattle.first_pass_lines.specs.Places.{line_end, IsPlaceOf};
ghost use Rattle.std.specs.Prelude.{◌≡◌, false, IfOk, IsUtf8};

use crate::state::BlockPass;
use first_pass_containers::containers::{
    begins_no_container, may_define, next_line_start, open_start,
};
use first_pass_containers::openers::start_at;
use first_pass_grammar::AfterMarker;
use first_pass_open::place::Place;
use std::alloc::AllocError;

impl<'a> BlockPass<'a> {
    /// Does the same as `parse_containers`, but is not inlined.
    #[inline(never)]
    pub(crate) fn parse_containers_apart(&mut self, place: Place<'a>) -> Result<usize, AllocError>
        requires { IsAtPlace self.old place }
        ensures block { IfOk result (λ next. ReadsEntered self.old self.new place.entry next) }
        ensures front { IfOk result (λ next. KnowsNext self.new next) }
    {
        let next = self.parse_containers(place)?;
        Ok(next)
    }

    /// Opens the containers that begin at a place, each in the one before, and reads the block after the last marker.
    /// If no container begins there, reads the leaf block. Returns the same as `parse_block`.
    #[inline(always)]
    pub(crate) fn parse_containers(&mut self, place: Place<'a>) -> Result<usize, AllocError>
        requires { IsAtPlace self.old place }
        ensures block { IfOk result (λ next. ReadsEntered self.old self.new place.entry next) }
        ensures front { IfOk result (λ next. KnowsNext self.new next) }
    {
        self.source.recall_length();
        let mut place = place;
        loop {
            if !self.open_footnote(&mut place)? {
                self.state.tree.recall_forest();
                let may_define = may_define(&self.source, &self.state);
                let Some(start) = start_at(&self.source, &mut place, may_define) else {
                    let next = self.parse_leaf_by_kind(place)?;
                    return Ok(next);
                };
                open_start(&mut self.state, &self.source, &place, start)?;
                if !matches!(start.after, AfterMarker::OnLine) {
                    let next = self.parse_after_marker(place, start.after)?;
                    return Ok(next);
                }
            }
            // No list ends in a container that was just opened, and no text there is a title.
            self.state.tree.recall_forest();
            if place.rest.is_at_plain() {
                let next = self.parse_text(place.offset(), &None)?;
                return Ok(next);
            }
            if begins_no_container(&place.rest) {
                let next = self.parse_leaf_by_kind(place)?;
                return Ok(next);
            }
        }
    }

    // Reads what follows the marker before a place: a leaf block in its line, the text of a task, the next line after a
    // quote's tag, or nothing if the line ends. Returns the same as `parse_block`.
    fn parse_after_marker(
        &mut self,
        place: Place<'a>,
        after: AfterMarker,
    ) -> Result<usize, AllocError>
        requires utf8 { IsUtf8 (source_text self.old) }
        requires place { IsPlaceOf (source_text self.old) place }
        requires after { IsAfterMarker after (state_of self.old) }
        requires none { (front_of self.old).is_known ≡ false }
        ensures block { IfOk result (λ next. ReadsBlock self.old self.new (line_end place.entry)
            (last_at place.entry (line_end place.entry) after) next) }
        ensures front { IfOk result (λ next. KnowsNext self.new next) }
    {
        match after {
            AfterMarker::OnLine => {
                let next = self.parse_leaf_by_kind(place)?;
                Ok(next)
            }
            AfterMarker::TaskText(marker) => {
                let next = self.parse_task_text(place, marker)?;
                Ok(next)
            }
            AfterMarker::LineEnds(_) => Ok(next_line_start(&self.source, &place)),
            AfterMarker::OnlyTag => {
                let following = next_line_start(&self.source, &place);
                let next = self.parse_tagged(following)?;
                Ok(next)
            }
        }
    }
}
