//! What the access and the sink of a row do.
use crate::reading::word_in;
use std::alloc::{AllocError, Global};

/// The results that the access gives, the number of its call that fails, and the numbers of the puts of the sink that fail.
#[derive(Drop)]
pub(crate) struct Given {
    pub(crate) results: Vec<u32>,
    pub(crate) fails_at: u32,
    pub(crate) puts: Vec<u32>,
}

impl Given {
    /// No results, and nothing that fails.
    pub(crate) fn new(alloc: Global) -> Given {
        Given {
            results: Vec::new(alloc),
            fails_at: u32::MAX,
            puts: Vec::new(alloc),
        }
    }

    // Adds results, which stand between commas.
    fn add_results(&mut self, results: &str) -> Result<(), AllocError> {
        for result in results.split(',') {
            self.results.push(word_in(result))?;
        }
        Ok(())
    }

    /// Reads `gives` and results, `fails` and the number of a call from 0, or `put` and that of a put from 1.
    pub(crate) fn read(&mut self, name: &str, value: &str) -> Result<(), AllocError> {
        match name {
            "gives" => self.add_results(value)?,
            "fails" => self.fails_at = word_in(value),
            "put" => self.puts.push(word_in(value))?,
            _ => {}
        }
        Ok(())
    }
}
