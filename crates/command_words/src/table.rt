//! The modes with their options.
ghost use Rattle.std.specs.Prelude.{MatchOption, codes};
ghost use Rattle.command_words.specs.Table.{IsRow, mode_text};

use crate::answer::Command;
use crate::mode::Mode;
use crate::options::{
    Options, are_none, device_alone, device_and_port, device_and_sequence, number_alone,
};

// The command `scan` with these options.
fn scan_in(options: Options) -> Option<Command>
    ensures { MatchOption result ((c : _) → IsRow (codes "scan") options c → ⊥) (λ c. IsRow (codes "scan") options c) }
{
    let (selection, sequence, ap) = device_and_port(options)?;
    Some(Command::Scan {
        selection,
        sequence,
        ap,
    })
}

// The command `audit` with these options.
fn audit_in(options: Options) -> Option<Command>
    ensures { MatchOption result ((c : _) → IsRow (codes "audit") options c → ⊥) (λ c. IsRow (codes "audit") options c) }
{
    if are_none(&options) {
        Some(Command::Audit)
    } else {
        None
    }
}

/// The command that the mode makes with these options. `None` where they are not the mode's.
pub fn command_in(mode: Mode, options: Options) -> Option<Command>
    ensures { MatchOption result ((c : _) → IsRow (mode_text mode) options c → ⊥) (λ c. IsRow (mode_text mode) options c) }
{
    match mode {
        Mode::Check => {
            let selection = device_alone(options)?;
            Some(Command::Check(selection))
        }
        Mode::Run => {
            let (selection, sequence) = device_and_sequence(options)?;
            Some(Command::Run {
                selection,
                sequence,
            })
        }
        Mode::Trace => {
            let (selection, sequence) = device_and_sequence(options)?;
            Some(Command::Trace {
                selection,
                sequence,
            })
        }
        Mode::Load => {
            let (selection, sequence) = device_and_sequence(options)?;
            Some(Command::Load {
                selection,
                sequence,
            })
        }
        Mode::Scan => scan_in(options),
        Mode::Gen => {
            let number = number_alone(&options)?;
            Some(Command::Gen(number))
        }
        Mode::Audit => audit_in(options),
    }
}
