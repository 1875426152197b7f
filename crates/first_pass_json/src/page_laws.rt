//! Laws of text and JSON in a page of HTML.

ghost use Rattle.first_pass_items.specs.Bytes.{less_than};
ghost use Rattle.first_pass_json.specs.JsonValues.{json_string};
ghost use Rattle.first_pass_json.specs.Scripts.{html_text, in_script};
ghost use Rattle.json.specs.Json.{Json, document, string};
ghost use Rattle.std.specs.Prelude.{◌≡◌, ◌≢◌, ℕ, All, List, Some};

/// No JSON ends the script element that it is in, since it has no `<` there (HTML 13.1.2.1). JSON that has a value has
/// the same value there (RFC 8259, 7), and the string of a text is that text.
pub fn law_of_scripts()
    ensures closed { (json : List ℕ) → All (λ byte. byte ≢ less_than) (in_script json) }
    ensures value { (json : List ℕ) (value : Json) → document json ≡ Some value
        → document (in_script json) ≡ Some value }
    ensures text { (text : List ℕ) → document (in_script (json_string text)) ≡ Some (string text) }
{}

/// No text begins a tag in an element, since it has no `<` there (HTML 13.1.3).
pub fn law_of_html_text()
    ensures { (text : List ℕ) → All (λ byte. byte ≢ less_than) (html_text text) }
{}
