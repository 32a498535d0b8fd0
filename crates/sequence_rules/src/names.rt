//! The equality of names.
ghost use Rattle.std.specs.Prelude.{◌≡◌};
ghost use Rattle.std.specs.Str.{bytes_eq};

// Whether two names are the same. Most names that are compared differ in their lengths or in their first bytes, and take little time:
// an equality of texts reads all bytes of both.
pub(crate) fn same_name(name: &str, known: &str) -> bool
    ensures { result ≡ bytes_eq name.now known.now }
{
    name.as_bytes() == known.as_bytes()
}
