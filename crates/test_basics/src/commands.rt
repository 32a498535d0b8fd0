//! Words of the command line, and what they ask for.
use crate::texts::{no_memory, words_of};
use command_words::{Command, WordsError, command_of};
use dap_base::{NameText, Words};
use sequence_resolve::Selection;
use std::alloc::{AllocError, Global};

fn text_of(value: &Option<NameText>) -> &str {
    match value {
        Some(text) => text.as_str(),
        None => "none",
    }
}

fn selection_text(alloc: Global, selection: &Selection) -> Result<String, AllocError> {
    let device = selection.device.as_str();
    let variant = text_of(&selection.variant);
    let pname = text_of(&selection.pname);
    format!(in alloc; "{device},{variant},{pname}")
}

// A mode, what is selected, and the name of a sequence.
fn run_text(
    alloc: Global,
    mode: &str,
    selection: &Selection,
    sequence: &NameText,
) -> Result<String, AllocError> {
    let meant = selection_text(alloc, selection)?;
    let name = sequence.as_str();
    format!(in alloc; "{mode} {meant} {name}")
}

fn show_command(alloc: Global, command: &Command) -> Result<String, AllocError> {
    match command {
        Command::Check(selection) => {
            let meant = selection_text(alloc, selection)?;
            format!(in alloc; "check {meant}")
        }
        Command::Run {
            selection,
            sequence,
        } => run_text(alloc, "run", selection, sequence),
        Command::Trace {
            selection,
            sequence,
        } => run_text(alloc, "trace", selection, sequence),
        Command::Load {
            selection,
            sequence,
        } => run_text(alloc, "load", selection, sequence),
        Command::Scan {
            selection,
            sequence,
            ap,
        } => {
            let meant = run_text(alloc, "scan", selection, sequence)?;
            format!(in alloc; "{meant} {ap}")
        }
        Command::Gen(number) => format!(in alloc; "gen {number}"),
        Command::Audit => String::from_str(alloc, "audit"),
    }
}

fn answer_text(alloc: Global, words: &Words) -> Result<String, AllocError> {
    match command_of(alloc, words) {
        Ok(command) => show_command(alloc, &command),
        Err(WordsError::Usage) => String::from_str(alloc, "usage"),
        Err(WordsError::OutOfMemory) => Err(AllocError),
    }
}

/// What the words of a line ask for, which stand between single spaces.
pub(crate) fn command_text(alloc: Global, line: &str) -> Result<String, AllocError> {
    let words = words_of(alloc, line).map_err(no_memory)?;
    answer_text(alloc, &words)
}

/// What no words ask for.
pub(crate) fn no_words_text(alloc: Global) -> Result<String, AllocError> {
    answer_text(alloc, &Words::new(alloc))
}
