//! What the run of a job made and left, as lines.
use sequence_meaning::{Direct, Recorded};
use std::io;
use std::io::ErrorKind;
use target_machine::{ImageAsk, ImagePart, Target, Variables};

// The text that the run wrote, or how long it is.
pub(crate) fn show_text(rt: &HostRuntime, bytes: &[u8]) -> io::Result<()> {
    if bytes.len() > 10_000 {
        return println!(rt; "text of {} bytes", bytes.len());
    }
    match str::from_utf8(bytes) {
        Ok(text) => print!(rt; "{text}"),
        Err(_) => println!(rt; "no text"),
    }
}

fn show_variables(rt: &HostRuntime, variables: &Variables) -> io::Result<()> {
    for variable in variables.as_slice() {
        println!(rt; "var {} 0x{:x}", variable.name.as_str(), variable.value)?;
    }
    Ok(())
}

// How many units there were, and how many of them were skipped.
fn show_units(rt: &HostRuntime, run: &Recorded) -> io::Result<()> {
    let Ok(calls) = run.calls.asks() else {
        return Err(io::Error::from(ErrorKind::OutOfMemory));
    };
    println!(rt; "units {}", calls.len())?;
    if run.skipped > 0 {
        println!(rt; "skipped {}", run.skipped)?;
    }
    Ok(())
}

// How the run ended, with its units and variables.
pub(crate) fn show_end(rt: &HostRuntime, run: &Recorded) -> io::Result<()> {
    match &run.ending {
        Direct::Done(variables) => {
            println!(rt; "end done")?;
            show_units(rt, run)?;
            show_variables(rt, variables)
        }
        Direct::Halted(cause, variables) => {
            println!(rt; "end halted {cause:?}")?;
            show_units(rt, run)?;
            show_variables(rt, variables)
        }
        Direct::Faulted { unit, .. } => println!(rt; "end faulted unit {unit}"),
        Direct::WriteFault => {
            println!(rt; "end write fault")?;
            show_units(rt, run)
        }
    }
}

// So many words of memory, from an address on.
pub(crate) fn show_memory(
    rt: &HostRuntime,
    target: &Target,
    address: u64,
    words: u32,
) -> io::Result<()> {
    for index in 0..words {
        let at = address.wrapping_add(4 * u64::from(index));
        if let ImagePart::Word(word) = target.view(ImageAsk::Word(at)) {
            println!(rt; "mem 0x{at:08x} 0x{:08x}", word.value)?;
        }
    }
    Ok(())
}
