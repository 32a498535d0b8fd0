//! A law of JSON texts, as the contract of a function that does nothing.

ghost use Rattle.std.specs.Prelude.{◌≡◌, ℕ, List, Some, length, IsUtf8};
ghost use Rattle.serde_json.specs.Data.{Data};
ghost use Rattle.serde_json.specs.Read.{read};
ghost use Rattle.json_form.specs.Short.{AreShort};

/// Each string in the value of a JSON text, its keys apart, is a text of at most as many bytes as that text.
pub fn strings_are_short()
    ensures { (text : List ℕ) (value : Data) → IsUtf8 text → read text ≡ Some value → AreShort (length text) value }
{}
