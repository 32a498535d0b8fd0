//! Names as they are held, and texts that may be absent.
ghost use Rattle.std.specs.Prelude.{◌≡◌, option_map};
ghost use Rattle.device_tree.specs.Same.{same_text};

use dap_base::NameText;

/// The name, lent without a copy.
pub fn name_of(name: &Option<NameText>) -> Option<&str>
    ensures { option_map (λ w. w.now) result ≡ name.now }
{
    match name {
        Some(name) => Some(name.as_str()),
        None => None,
    }
}

/// Whether both are absent, or both are the same text.
pub fn same_text(text: Option<&str>, other: Option<&str>) -> bool
    ensures { result ≡ same_text (option_map (λ w. w.now) text.entry) (option_map (λ w. w.now) other.entry) }
{
    match (text, other) {
        (None, None) => true,
        (Some(text), Some(other)) => text == other,
        _ => false,
    }
}
