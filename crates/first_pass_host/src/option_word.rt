//! The word for the options.

ghost use Rattle.first_pass_host.specs.OptionWord.{WordsMean, WordMeans};
ghost use Rattle.first_pass_items.specs.Bytes.{plus_sign};
ghost use Rattle.std.specs.Prelude.{◌≡◌, ◌==◌, ℕ, IfSome, IsNone, slice_index};

use bitflags::Flags;
use first_pass_items::option_set::Options;

/// Returns the options that the words after a program's name denote. No word denotes no options. A single word of one
/// or more ASCII digits denotes the options whose bits are its decimal value. Returns `None` if there are more words,
/// or if the word has another byte, or a value with bits of no option. Allocates nothing.
pub fn parse_options(words: &[String]) -> Option<Options>
    ensures some { IfSome result (λ options. WordsMean words.now options.0) }
    ensures none { IsNone result → (bits : ℕ) → ¬ WordsMean words.now bits }
{
    match words {
        [] => Some(Options::empty()),
        [word] => options_of(word.as_str()),
        _ => None,
    }
}

// The options that a word denotes: those whose bits are its decimal value, in one or more ASCII digits.
fn options_of(word: &str) -> Option<Options>
    ensures some { IfSome result (λ options. WordMeans word.now options.0) }
    ensures none { IsNone result → (bits : ℕ) → ¬ WordMeans word.now bits }
{
    if begins_with_plus(word) {
        return None;
    }
    match word.parse::<u32>() {
        Ok(bits) => Options::from_bits(bits),
        Err(_) => None,
    }
}

/// Returns whether a word begins with a plus sign, which `parse` allows before digits.
pub fn begins_with_plus(word: &str) -> bool
    ensures { result ≡ (slice_index word.now 0 == plus_sign) }
{
    word.as_bytes().first().copied().unwrap_or(0) == b'+'
}
