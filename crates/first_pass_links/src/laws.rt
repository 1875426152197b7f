//! Laws of the definitions.

ghost use Rattle.first_pass_links.specs.Destinations.{bare_len};
ghost use Rattle.first_pass_links.specs.Runs.{BeginsRun};
ghost use Rattle.std.specs.Prelude.{◌≡◌, ℕ, List, Some};

/// `bare_len` gives the length n exactly if the first n bytes are a run that ends there, by the grammar of runs.
/// CommonMark 6.3.
pub fn law_of_runs()
    ensures counted { (deepest n : ℕ) (bs : List ℕ) → bare_len deepest 0 0 bs ≡ Some n → BeginsRun deepest bs n }
    ensures found { (deepest n : ℕ) (bs : List ℕ) → BeginsRun deepest bs n → bare_len deepest 0 0 bs ≡ Some n }
{}
