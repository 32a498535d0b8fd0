//! Tables, tried row by row.

use crate::RowError;
use std::alloc::Global;
use std::io;
use std::io::ErrorKind;
use test_tables::{Row, Tally, table_of};

/// How the rows of a table are tried. The rows after a line `@form` run one after the other over what was begun at the first.
pub trait Trial {
    /// Begins the rows of this form.
    fn begin(alloc: Global, form: &str) -> Result<Self, RowError>;

    /// What comes of a row with this input.
    fn answer(&mut self, alloc: Global, input: &str) -> Result<String, RowError>;
}

// The rows of a form that were begun.
#[derive(Drop)]
struct Begun<T: Trial> {
    form: String,
    trial: T,
}

// Whether the rows of this form were begun.
fn is_begun<T: Trial>(begun: &Option<Begun<T>>, form: &str) -> bool {
    match begun {
        Some(begun) => begun.form.as_str() == form,
        None => false,
    }
}

// What comes of a row.
fn answer_to<T: Trial + Drop>(
    alloc: Global,
    begun: &mut Option<Begun<T>>,
    row: &Row,
) -> Result<String, RowError> {
    let input = str::from_utf8(row.input.as_slice()).map_err(|_| RowError::Unreadable)?;
    if !is_begun(begun, row.form.as_str()) {
        *begun = None;
        let trial = T::begin(alloc, row.form.as_str())?;
        let form = row.form.clone()?;
        *begun = Some(Begun { form, trial });
    }
    match begun {
        Some(begun) => begun.trial.answer(alloc, input),
        None => Err(RowError::Unreadable),
    }
}

/// Tries the rows of the file `NAME.table`, prints those of which something else came than is expected, and prints their number.
///
/// An error where the file cannot be read, standard output cannot be written, or memory is refused.
pub fn try_table<T: Trial + Drop>(rt: &HostRuntime, name: &str) -> io::Result<()> {
    let rows = table_of(rt, name)?;
    let mut tally = Tally::new();
    let mut begun: Option<Begun<T>> = None;
    for row in rows.as_slice() {
        match answer_to(rt.alloc(), &mut begun, row) {
            Ok(came) => tally.compare(rt, name, row, came.as_bytes())?,
            Err(RowError::Unreadable) => tally.compare(rt, name, row, b"(cannot be read)")?,
            Err(RowError::OutOfMemory) => return Err(io::Error::from(ErrorKind::OutOfMemory)),
        }
    }
    tally.print(rt, name)
}
