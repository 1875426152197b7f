//! The set of options.

ghost use Rattle.first_pass_items.specs.OptionWords.{gfm_footnotes};
ghost use Rattle.std.specs.Prelude.{⊤, ◌≡◌, [], ◌∷◌, codes};

use bitflags::{Flag, Flags, bitflag_items};

/// The set of extensions of CommonMark that are on. The calls `empty`, `contains`, `insert`, `union`,
/// `from_bits` and `bits` are those of `bitflags::Flags`. `from_bits` returns `None` if bit 0 or a bit above 15 is set,
/// since no constant has these bits.
#[derive(Clone, Copy, PartialEq, Eq)]
pub struct Options(u32);

bitflag_items! {
    impl Options: u32 {
        const ENABLE_TABLES = 2;
        const ENABLE_FOOTNOTES = 4;
        const ENABLE_STRIKETHROUGH = 8;
        const ENABLE_TASKLISTS = 16;
        const ENABLE_SMART_PUNCTUATION = 32;
        const ENABLE_HEADING_ATTRIBUTES = 64;
        const ENABLE_YAML_STYLE_METADATA_BLOCKS = 128;
        const ENABLE_PLUSES_DELIMITED_METADATA_BLOCKS = 256;
        const ENABLE_OLD_FOOTNOTES = 516;
        const ENABLE_MATH = 1024;
        const ENABLE_GFM = 2048;
        const ENABLE_DEFINITION_LIST = 4096;
        const ENABLE_SUPERSCRIPT = 8192;
        const ENABLE_SUBSCRIPT = 16384;
        const ENABLE_WIKILINKS = 32768;
    }
}

impl Flags for Options {
    type Bits = u32;

    ghost exact = { ⊤ };

    ghost table = { (codes "ENABLE_TABLES", 2)
        ∷ (codes "ENABLE_FOOTNOTES", 4)
        ∷ (codes "ENABLE_STRIKETHROUGH", 8)
        ∷ (codes "ENABLE_TASKLISTS", 16)
        ∷ (codes "ENABLE_SMART_PUNCTUATION", 32)
        ∷ (codes "ENABLE_HEADING_ATTRIBUTES", 64)
        ∷ (codes "ENABLE_YAML_STYLE_METADATA_BLOCKS", 128)
        ∷ (codes "ENABLE_PLUSES_DELIMITED_METADATA_BLOCKS", 256)
        ∷ (codes "ENABLE_OLD_FOOTNOTES", 516)
        ∷ (codes "ENABLE_MATH", 1024)
        ∷ (codes "ENABLE_GFM", 2048)
        ∷ (codes "ENABLE_DEFINITION_LIST", 4096)
        ∷ (codes "ENABLE_SUPERSCRIPT", 8192)
        ∷ (codes "ENABLE_SUBSCRIPT", 16384)
        ∷ (codes "ENABLE_WIKILINKS", 32768)
        ∷ [] };

    ghost set_of = { λ o. o.0 };

    fn flags<'a>() -> &'a [Flag<Options>] {
        Options::FLAGS
    }

    fn bits(&self) -> u32 {
        self.0
    }

    fn from_bits_retain(bits: u32) -> Options {
        Options(bits)
    }
}

impl Options {
    /// Whether footnotes have GitHub's form: `ENABLE_FOOTNOTES` without the second bit of
    /// `ENABLE_OLD_FOOTNOTES`.
    pub fn has_gfm_footnotes(&self) -> bool
        ensures { result ≡ gfm_footnotes self.now }
    {
        self.contains(Options::ENABLE_FOOTNOTES) && !self.contains(Options::ENABLE_OLD_FOOTNOTES)
    }
}
