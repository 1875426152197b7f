//! The attributes of a heading (this project).

ghost use Rattle.first_pass_attributes.specs.Attributes.{attributes_in, no_attributes};
ghost use Rattle.std.specs.Prelude.{◌≡◌};

use crate::short_list::ShortList;

/// The attributes in the attribute block of a heading, all of them slices of the text. There is an optional id. The
/// classes and the keys are in order, and each key has an optional value (this project).
#[derive(Drop)]
pub struct HeadingAttributes<'a> {
    pub id: Option<&'a str>,
    pub classes: ShortList<&'a str>,
    pub attrs: ShortList<(&'a str, Option<&'a str>)>,
}

impl<'a> HeadingAttributes<'a> {
    /// Returns no attributes. Allocates nothing.
    #[inline(always)]
    pub fn new() -> HeadingAttributes<'a>
        ensures { attributes_in result ≡ no_attributes }
    {
        HeadingAttributes {
            id: None,
            classes: ShortList::new(),
            attrs: ShortList::new(),
        }
    }
}
