//! All faults of a pack, as lines.
use dap_base::{NameText, OutOfMemory};
use device_tree::{Pack, pack_of};
use pack_faults::{PackFault, PackFaults, PackRefusal, PackRequest, SetName, pack_faults};
use serde_json::Value;
use std::alloc::{AllocError, Global};

fn pack(alloc: Global, text: &str) -> Option<Pack> {
    let Ok(value) = Value::from_str(alloc, text) else {
        return None;
    };
    pack_of(alloc, &value).ok()
}

// What is requested: `faults device=D1 variant=V1 pname=P1`; what is left out is requested of all.
fn option_named<'a>(words: &'a str, name: &str) -> Option<&'a str> {
    for word in words.split(' ') {
        if let Some((key, value)) = word.split_once('=') {
            if key == name {
                return Some(value);
            }
        }
    }
    None
}

fn name_of(alloc: Global, words: &str, name: &str) -> Result<Option<NameText>, OutOfMemory> {
    match option_named(words, name) {
        Some(value) => Ok(Some(NameText::new(alloc, value)?)),
        None => Ok(None),
    }
}

fn request_of(alloc: Global, words: &str) -> Result<PackRequest, OutOfMemory> {
    Ok(PackRequest {
        device: name_of(alloc, words, "device")?,
        variant: name_of(alloc, words, "variant")?,
        pname: name_of(alloc, words, "pname")?,
    })
}

// A name, or a dash where there is none.
fn text_of(name: &Option<NameText>) -> &str {
    match name {
        Some(name) => name.as_str(),
        None => "-",
    }
}

fn set_line(alloc: Global, set: &SetName) -> Result<String, AllocError> {
    let (variant, pname) = (text_of(&set.variant), text_of(&set.pname));
    format!(in alloc; "set {} {variant} {pname}\n", set.device.as_str())
}

// The kind of a fault, its spot, its line, and the sets that have it.
fn fault_line(alloc: Global, fault: &PackFault) -> Result<String, AllocError> {
    let kind = fault.found.fault.kind;
    let spot = &fault.found.fault.spot;
    let (sequence, part, path) = (text_of(&spot.sequence), spot.part, spot.path.as_slice());
    let (line, sets) = (text_of(&fault.found.line), fault.sets.as_slice());
    format!(in alloc;
        "{kind:?} {sequence} {path:?} {part:?} {}:{} [{line}] {sets:?}\n",
        spot.place.line, spot.place.column
    )
}

fn fault_lines(alloc: Global, faults: &PackFaults) -> Result<String, AllocError> {
    let (devices, unread, unreached) = (faults.devices, faults.unread, faults.unreached);
    let mut lines = format!(in alloc; "devices {devices} unread {unread} unreached {unreached}\n")?;
    for set in faults.sets.as_slice() {
        lines.push_str(&set_line(alloc, set)?)?;
    }
    for fault in faults.faults.as_slice() {
        lines.push_str(&fault_line(alloc, fault)?)?;
    }
    Ok(lines)
}

fn pack_lines(alloc: Global, pack: &Pack, request: &PackRequest) -> Result<String, AllocError> {
    match pack_faults(alloc, pack, request) {
        Ok(faults) => fault_lines(alloc, &faults),
        Err(PackRefusal::OutOfMemory) => Err(AllocError),
        Err(refusal) => format!(in alloc; "{refusal:?}\n"),
    }
}

/// The counts, the sets and the faults of a pack, or why there is no set.
pub fn faults(alloc: Global, text: &str, words: &str) -> Result<String, AllocError> {
    let Ok(request) = request_of(alloc, words) else {
        return Err(AllocError);
    };
    match pack(alloc, text) {
        Some(pack) => pack_lines(alloc, &pack, &request),
        None => String::from_str(alloc, "no pack\n"),
    }
}
