//! Calls of functions, and uses of values, over an access whose results are given.
use crate::ends::{answer_text, end_text};
use crate::given::Given;
use crate::reading::{head_and_text, no_memory, number_in, word_in};
use crate::shown::with_calls_and_lines;
use access_calls::Scripted;
use dap_base::{MemorySink, OutOfMemory, number};
use function_calls::{Held, make_call, use_both, use_value, use_values};
use function_table::{Function, function_of};
use sequence_rules::Globals;
use std::alloc::{AllocError, Global};
use target_calls::{Slot, Value};

// One call: its function, its numbers, what the variables are, and what the access and the sink do.
#[derive(Drop)]
struct CallRow {
    function: Option<Function>,
    numbers: Vec<u64>,
    globals: Globals<Value>,
    given: Given,
}

// No call yet, where `__dp`, `__ap` and `__errorcontrol` are 0.
fn no_call(alloc: Global) -> Result<CallRow, OutOfMemory> {
    let mut globals = Globals::new(alloc);
    for name in ["__dp", "__ap", "__errorcontrol"] {
        globals.add(alloc, name, Value::Number(0))?;
    }
    Ok(CallRow {
        function: None,
        numbers: Vec::new(alloc),
        globals,
        given: Given::new(alloc),
    })
}

// Reads one word: what is given, the value of a variable, a number, or the name of a function.
fn read_word(alloc: Global, row: &mut CallRow, word: &str) -> Result<(), AllocError> {
    if let Some((name, value)) = word.split_once('=') {
        if name.starts_with("__") {
            row.globals.set(name, Value::Number(number_in(value)));
            return Ok(());
        }
        return row.given.read(name, value);
    }
    match number(word) {
        Some(number) => row.numbers.push(number)?,
        None => row.function = function_of(word),
    }
    Ok(())
}

fn read_call(alloc: Global, head: &str) -> Result<CallRow, AllocError> {
    let mut row = no_call(alloc).map_err(no_memory)?;
    for word in head.split_whitespace() {
        read_word(alloc, &mut row, word)?;
    }
    Ok(row)
}

// The call with its text: what is answered, asked and written.
fn make_row_call(alloc: Global, row: CallRow, text: &str) -> Result<String, AllocError> {
    let CallRow {
        function,
        numbers,
        globals,
        given,
    } = row;
    let Given {
        results,
        fails_at,
        puts,
    } = given;
    let Some(function) = function else {
        return String::from_str(alloc, "no function");
    };
    let mut held = Held::new(alloc, globals);
    let mut access = Scripted::new(alloc, results, fails_at);
    let mut sink = MemorySink::new(alloc, puts.as_slice()).map_err(no_memory)?;
    let answer = make_call(
        function,
        text,
        numbers.as_slice(),
        alloc,
        &mut held,
        &mut access,
        &mut sink,
    );
    let text = answer_text(alloc, answer, &mut access)?;
    with_calls_and_lines(alloc, text, access.calls.as_slice(), sink.bytes())
}

/// What is answered, asked and written at a call: what is given, variables, the function, numbers, and after `"` a text.
pub(crate) fn call_text(alloc: Global, input: &str) -> Result<String, AllocError> {
    let (head, text) = head_and_text(input);
    make_row_call(alloc, read_call(alloc, head)?, text)
}

// A number, or the result of a number.
fn value_in(word: &str) -> Value {
    match word.strip_prefix("result:") {
        Some(index) => Value::Pending(Slot {
            index: word_in(index),
        }),
        None => Value::Number(number_in(word)),
    }
}

// What is given, and values.
fn read_values(alloc: Global, text: &str) -> Result<(Given, Vec<Value>), AllocError> {
    let mut given = Given::new(alloc);
    let mut values = Vec::new(alloc);
    for word in text.split_whitespace() {
        match word.split_once('=') {
            Some((name, value)) => given.read(name, value)?,
            None => values.push(value_in(word))?,
        }
    }
    Ok((given, values))
}

/// The number of a value, where it is used.
pub(crate) fn number_of_text(alloc: Global, text: &str) -> Result<String, AllocError> {
    let (given, values) = read_values(alloc, text)?;
    let [value] = values.as_slice() else {
        return String::from_str(alloc, "not one value");
    };
    let mut access = Scripted::new(alloc, given.results, given.fails_at);
    match use_value(*value, &mut access) {
        Ok(number) => format!(in alloc; "{number}"),
        Err(end) => end_text(alloc, end, &mut access),
    }
}

/// The numbers of two values, used one after the other.
pub(crate) fn both_text(alloc: Global, text: &str) -> Result<String, AllocError> {
    let (given, values) = read_values(alloc, text)?;
    let [left, right] = values.as_slice() else {
        return String::from_str(alloc, "not two values");
    };
    let mut access = Scripted::new(alloc, given.results, given.fails_at);
    match use_both(*left, *right, &mut access) {
        Ok((left, right)) => format!(in alloc; "{left} {right}"),
        Err(end) => end_text(alloc, end, &mut access),
    }
}

/// The numbers of values, used one after the other.
pub(crate) fn numbers_of_text(alloc: Global, text: &str) -> Result<String, AllocError> {
    let (given, values) = read_values(alloc, text)?;
    let mut access = Scripted::new(alloc, given.results, given.fails_at);
    match use_values(alloc, values.as_slice(), &mut access) {
        Ok(numbers) => format!(in alloc; "{numbers:?}"),
        Err(end) => end_text(alloc, end, &mut access),
    }
}
