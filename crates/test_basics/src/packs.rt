//! Packs, read from JSON and written level by level.
use crate::members::fault_text;
use dap_base::NameText;
use device_tree::{Device, Devices, Level, Pack, SeqText, Step, Steps, pack_of};
use serde_json::Value;
use std::alloc::{AllocError, Global};

// ` LABEL TEXT`, where there is a text.
fn push_option(out: &mut String, label: &str, text: &Option<NameText>) -> Result<(), AllocError> {
    if let Some(text) = text {
        out.push_str(label)?;
        out.push_str(text.as_str())?;
    }
    Ok(())
}

// A step without those inside it.
fn push_step(alloc: Global, out: &mut String, step: &Step) -> Result<(), AllocError> {
    match step {
        Step::Block { code, atomic } => {
            let is = if *atomic { " atomic" } else { "" };
            let text = format!(in alloc; " [block{is} {}]", code.as_str())?;
            out.push_str(text.as_str())
        }
        Step::Control {
            cond,
            repeat,
            timeout,
            steps,
        } => {
            out.push_str(" [control")?;
            push_option(out, " if ", cond)?;
            push_option(out, " while ", repeat)?;
            if let Some(timeout) = timeout {
                let text = format!(in alloc; " timeout {timeout}")?;
                out.push_str(text.as_str())?;
            }
            let count = steps.len();
            let text = format!(in alloc; " steps {count}]")?;
            out.push_str(text.as_str())
        }
    }
}

fn push_steps(alloc: Global, out: &mut String, steps: &Steps) -> Result<(), AllocError> {
    for step in steps.as_slice() {
        push_step(alloc, out, step)?;
    }
    Ok(())
}

fn push_sequence(alloc: Global, out: &mut String, sequence: &SeqText) -> Result<(), AllocError> {
    out.push_str(" / sequence ")?;
    out.push_str(sequence.name.as_str())?;
    push_option(out, " of ", &sequence.pname)?;
    if sequence.disable {
        out.push_str(" disabled")?;
    }
    push_steps(alloc, out, sequence.steps.as_steps())
}

// What a level holds besides its name and the levels below it.
fn push_level(alloc: Global, out: &mut String, level: &Level) -> Result<(), AllocError> {
    push_option(out, " vars ", &level.debugvars)?;
    for sequence in level.sequences.as_slice() {
        push_sequence(alloc, out, sequence)?;
    }
    Ok(())
}

fn push_device(alloc: Global, out: &mut String, device: &Device) -> Result<(), AllocError> {
    out.push_str(" / device ")?;
    out.push_str(device.name.as_str())?;
    push_level(alloc, out, &device.level)?;
    for variant in device.variants.as_slice() {
        out.push_str(" / variant ")?;
        out.push_str(variant.name.as_str())?;
        push_level(alloc, out, &variant.level)?;
    }
    Ok(())
}

fn push_devices(alloc: Global, out: &mut String, devices: &Devices) -> Result<(), AllocError> {
    for device in devices.as_slice() {
        push_device(alloc, out, device)?;
    }
    Ok(())
}

// The families, of whose subfamilies there is the number.
fn push_families(alloc: Global, out: &mut String, pack: &Pack) -> Result<(), AllocError> {
    for family in pack.families.as_slice() {
        let count = family.sub_families.len();
        let text = format!(in alloc; " / family {} subfamilies {count}", family.name.as_str())?;
        out.push_str(text.as_str())?;
        push_level(alloc, out, &family.level)?;
        push_devices(alloc, out, &family.devices)?;
    }
    Ok(())
}

fn show_pack(alloc: Global, pack: &Pack) -> Result<String, AllocError> {
    let mut text = String::from_str(alloc, "pack")?;
    if let Some(defaults) = &pack.defaults {
        text.push_str(" / defaults")?;
        push_level(alloc, &mut text, defaults)?;
    }
    push_families(alloc, &mut text, pack)?;
    Ok(text)
}

/// The levels of a pack in order, with their sequences and steps, or the first fault.
pub(crate) fn pack_text(alloc: Global, text: &str) -> Result<String, AllocError> {
    let Ok(value) = Value::from_str(alloc, text) else {
        return String::from_str(alloc, "no JSON");
    };
    match pack_of(alloc, &value) {
        Ok(pack) => show_pack(alloc, &pack),
        Err(fault) => fault_text(alloc, &fault),
    }
}
