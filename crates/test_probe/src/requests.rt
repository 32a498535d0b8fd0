//! Requests by name.

use std::alloc::Global;
use test_benches::{put_request, request_of};
use test_words::{RowError, RowWords, Trial};

/// Requests, and their bytes and kinds.
#[derive(Drop)]
pub struct NamedRequests;

impl Trial for NamedRequests {
    fn begin(_alloc: Global, _form: &str) -> Result<NamedRequests, RowError> {
        Ok(NamedRequests)
    }

    fn answer(&mut self, alloc: Global, input: &str) -> Result<String, RowError> {
        let mut words = RowWords::new(input);
        let request = request_of(&mut words)?;
        words.end()?;
        let mut text = String::new(alloc);
        put_request(&mut text, request)?;
        let kind = request.kind();
        write!(text, " {kind:?}")?;
        Ok(text)
    }
}
