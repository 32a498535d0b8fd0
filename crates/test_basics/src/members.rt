//! Members of JSON objects, and faults with their paths.
use dap_base::ItemList;
use json_form::{Each, JobFault, ListOf, Number, PathStep, required_of};
use serde_json::Value;
use std::alloc::{AllocError, Global};

// At most three numbers from 1 to 3.
const DIGITS: ListOf<Each<Number<u8>>> = ListOf {
    limit: Some(3),
    item: Each {
        item: Number { low: 1, high: 3 },
    },
};

// The name of a fault, and each step of its path.
pub(crate) fn fault_text(alloc: Global, fault: &JobFault) -> Result<String, AllocError> {
    let mut text = String::from_str(alloc, fault.name())?;
    if let Some(path) = fault.path() {
        for step in path.as_slice() {
            let step = match step {
                PathStep::Key(name) => format!(in alloc; " {}", name.as_str())?,
                PathStep::Index(index) => format!(in alloc; " {index}")?,
            };
            text.push_str(step.as_str())?;
        }
    }
    Ok(text)
}

fn digits_text(alloc: Global, digits: &ItemList<u8>) -> Result<String, AllocError> {
    let mut text = String::from_str(alloc, "digits")?;
    for digit in digits.as_slice() {
        let digit = format!(in alloc; " {digit}")?;
        text.push_str(digit.as_str())?;
    }
    Ok(text)
}

/// The digits in a member of an object, or their first fault. The name of the member stands before the object.
pub(crate) fn member_text(alloc: Global, text: &str) -> Result<String, AllocError> {
    let (key, object) = text.split_once(' ').unwrap_or((text, ""));
    let Ok(object) = Value::from_str(alloc, object) else {
        return String::from_str(alloc, "no JSON");
    };
    match required_of(alloc, &object, key, &DIGITS) {
        Ok(digits) => digits_text(alloc, &digits),
        Err(fault) => fault_text(alloc, &fault),
    }
}
