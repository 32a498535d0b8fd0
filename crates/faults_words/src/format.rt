//! How faults are written.
ghost use Rattle.std.specs.Prelude.{◌≡◌, MatchOption, option_map};
ghost use Rattle.faults_words.specs.Asks.{IsFormat};

/// How faults are written.
#[derive(Clone, Copy, Debug, PartialEq, Eq)]
pub enum Format {
    /// Lines of text.
    Text,
    /// One JSON object.
    Json,
    /// A SARIF 2.1.0 log.
    Sarif,
}

/// The format of this name, `Text` where none is given. `None` for any other name.
pub fn format_of(name: Option<&str>) -> Option<Format>
    ensures { MatchOption result ((f : _) → IsFormat (option_map (λ n. n.now) name.entry) f → ⊥) (λ f. IsFormat (option_map (λ n. n.now) name.entry) f) }
{
    match name {
        None => Some(Format::Text),
        Some("text") => Some(Format::Text),
        Some("json") => Some(Format::Json),
        Some("sarif") => Some(Format::Sarif),
        Some(_) => None,
    }
}
