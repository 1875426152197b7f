//! The fields of the block pass.

ghost use Rattle.first_pass_scan.proofs.KnownClosings.{known_prop};
ghost use Rattle.first_pass_scan.specs.MetadataSearch.{IsKnownOf};

use first_pass_kinds::next_front::NextFront;
use first_pass_lists::state::PassState;
use first_pass_names::items::Allocations;
use first_pass_open::source::Source;
use first_pass_scan::metadata_search::MetadataEnds;

/// A pass over the blocks of a text: its source, the state so far, and what the tree's nodes name.
#[derive(Drop)]
pub struct BlockPass<'a> {
    pub source: Source<'a>,
    pub state: PassState,
    pub allocs: Allocations<'a>,
    /// The front of the next unread line, if the block before that line found it.
    pub next_front: NextFront<'a>,
    /// The results of earlier searches for lines that close metadata.
    pub metadata_ends: MetadataEnds,
    ghost known: { IsKnownOf source.text.now metadata_ends } by { known_prop source.text.now metadata_ends },
}
