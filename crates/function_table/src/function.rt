//! The functions that debug access sequences call.

ghost use Rattle.std.specs.Prelude.{◌≡◌, ◌↔◌, false, true, IsTrue, Some};
ghost use Rattle.function_table.specs.declared.function.Function.{Function};
ghost use Rattle.function_table.specs.Functions.{name_of, parameters_of, has_more, Takes, kind_at, result_kind_of};
ghost use Rattle.function_table.specs.Lookup.{function_named};

use ParameterKind::{Number, Text};
use ResultKind::{Default, HaltsUnsupported, PinByte, Value, Zero};

/// A function that a debug access sequence can call.
#[derive(Clone, Copy, Debug, PartialEq, Eq)]
pub enum Function {
    /// `Read8`. Reads a byte of memory.
    Read8,
    /// `Read16`. Reads a half-word of memory.
    Read16,
    /// `Read32`. Reads a word of memory.
    Read32,
    /// `Read64`. Reads a double word of memory.
    Read64,
    /// `Write8`. Writes a byte of memory.
    Write8,
    /// `Write16`. Writes a half-word of memory.
    Write16,
    /// `Write32`. Writes a word of memory.
    Write32,
    /// `Write64`. Writes a double word of memory.
    Write64,
    /// `ReadAP`. Reads a register of the access port.
    ReadAp,
    /// `WriteAP`. Writes a register of the access port.
    WriteAp,
    /// `ReadDP`. Reads a register of the debug port.
    ReadDp,
    /// `WriteDP`. Writes a register of the debug port.
    WriteDp,
    /// `DAP_Delay`. Waits.
    DapDelay,
    /// `DAP_SWJ_Clock`. Sets the clock of the wire.
    DapSwjClock,
    /// `DAP_WriteABORT`. Writes the ABORT register.
    DapWriteAbort,
    /// `DAP_SWJ_Pins`. Drives and reads pins: output, select, wait.
    DapSwjPins,
    /// `DAP_SWJ_Sequence`. Sends bits on the wire: count, value.
    DapSwjSequence,
    /// `DAP_JTAG_Sequence`. Sends bits over JTAG.
    DapJtagSequence,
    /// `Sequence`. Runs the sequence of the name.
    Sequence,
    /// `Message`. Shows a message: kind, format, and the numbers that the format converts.
    Message,
    /// `Query`. Asks the user: kind, text, default.
    Query,
    /// `QueryValue`. Asks the user for a value: text, default.
    QueryValue,
    /// `LoadDebugInfo`. Loads debug information of the file.
    LoadDebugInfo,
}

/// The kind of an argument.
#[derive(Clone, Copy, Debug, PartialEq, Eq)]
pub enum ParameterKind {
    /// An expression.
    Number,
    /// A text between quotes.
    Text,
}

/// What a call gives.
#[derive(Clone, Copy, Debug, PartialEq, Eq)]
pub enum ResultKind {
    /// The value that was read.
    Value,
    /// 0.
    Zero,
    /// The states of the pins, in one byte.
    PinByte,
    /// The value of the call's last argument.
    Default,
    /// None: the run halts, since the function isn't supported.
    HaltsUnsupported,
}

/// The function of this name, letter for letter. `None` exactly where no function has it.
pub fn function_of(name: &str) -> Option<Function>
    ensures answer { result ≡ function_named name.now }
    ensures only { (f : Function) → (result ≡ Some f) ↔ (name.now ≡ name_of f) }
{
    let likely = guess_function(name.as_bytes());
    if likely.name() == name {
        return Some(likely);
    }
    find_function(name)
}

// The function that a name most likely is, by its length and the byte before the last: a guess, so that one comparison finds the
// functions that are called most.
fn guess_function(name: &[u8]) -> Function {
    let mark = match name.len().checked_sub(2) {
        Some(index) => name[index],
        None => 0,
    };
    match (name.len(), mark) {
        (6, b'3') => Function::Read32,
        (7, b'3') => Function::Write32,
        (6, b'A') => Function::ReadAp,
        (7, b'A') => Function::WriteAp,
        (6, b'D') => Function::ReadDp,
        (7, b'D') => Function::WriteDp,
        (6, b'e') => Function::Write8,
        (7, b'g') => Function::Message,
        (8, _) => Function::Sequence,
        (9, _) => Function::DapDelay,
        _ => Function::Read8,
    }
}

// The function of the name, by a table from names.
fn find_function(name: &str) -> Option<Function>
    ensures { result ≡ function_named name.now }
{
    match name {
        "Read8" => Some(Function::Read8),
        "Read16" => Some(Function::Read16),
        "Read32" => Some(Function::Read32),
        "Read64" => Some(Function::Read64),
        "Write8" => Some(Function::Write8),
        "Write16" => Some(Function::Write16),
        "Write32" => Some(Function::Write32),
        "Write64" => Some(Function::Write64),
        "ReadAP" => Some(Function::ReadAp),
        "WriteAP" => Some(Function::WriteAp),
        "ReadDP" => Some(Function::ReadDp),
        "WriteDP" => Some(Function::WriteDp),
        "DAP_Delay" => Some(Function::DapDelay),
        "DAP_SWJ_Clock" => Some(Function::DapSwjClock),
        "DAP_WriteABORT" => Some(Function::DapWriteAbort),
        "DAP_SWJ_Pins" => Some(Function::DapSwjPins),
        "DAP_SWJ_Sequence" => Some(Function::DapSwjSequence),
        "DAP_JTAG_Sequence" => Some(Function::DapJtagSequence),
        "Sequence" => Some(Function::Sequence),
        "Message" => Some(Function::Message),
        "Query" => Some(Function::Query),
        "QueryValue" => Some(Function::QueryValue),
        "LoadDebugInfo" => Some(Function::LoadDebugInfo),
        _ => None,
    }
}

impl Function {
    /// The name that code calls the function by.
    pub fn name(self) -> &'static str
        ensures { result.now ≡ name_of self }
    {
        row_of(self).name
    }

    /// The kinds of the arguments that each call has, in order: 1 to 3 of them. For `Message` any
    /// number of further numbers may follow.
    pub fn parameters(self) -> &'static [ParameterKind]
        ensures { result.now ≡ parameters_of self }
    {
        row_of(self).parameters
    }

    /// Whether further numbers may follow the arguments that each call has: for `Message` alone.
    pub fn has_more(self) -> bool
        ensures value { result ≡ has_more self }
        ensures only_message { IsTrue result ↔ (self ≡ Function.Message) }
    {
        row_of(self).more
    }

    /// Whether a call may have this many arguments: as many as there are parameters, and for
    /// `Message` any number from 2 on.
    pub fn takes(self, count: usize) -> bool
        ensures { IsTrue result ↔ Takes self count }
    {
        let least = self.parameters().len();
        if self.has_more() {
            least <= count
        } else {
            count == least
        }
    }

    /// The kind of the argument at `index`, counted from 0. `None` exactly after the last; `Message`
    /// has a number at each index from 2 on.
    pub fn kind_at(self, index: usize) -> Option<ParameterKind>
        ensures { result ≡ kind_at self index }
    {
        match self.parameters().get(index) {
            Some(kind) => Some(*kind),
            None if self.has_more() => Some(ParameterKind::Number),
            None => None,
        }
    }

    /// What a call gives.
    pub fn result(self) -> ResultKind
        ensures { result ≡ result_kind_of self }
    {
        row_of(self).result
    }
}

// A row of the table.
#[derive(Clone, Copy, Debug)]
struct Row {
    name: &'static str,
    parameters: &'static [ParameterKind],
    more: bool,
    result: ResultKind,
}

// The row of a function.
fn row_of(function: Function) -> Row
    ensures name { result.name.now ≡ name_of function }
    ensures parameters { result.parameters.now ≡ parameters_of function }
    ensures more { result.more ≡ has_more function }
    ensures result { result.result ≡ result_kind_of function }
{
    match function {
        Function::Read8 => fixed_row("Read8", &[Number], Value),
        Function::Read16 => fixed_row("Read16", &[Number], Value),
        Function::Read32 => fixed_row("Read32", &[Number], Value),
        Function::Read64 => fixed_row("Read64", &[Number], Value),
        Function::Write8 => fixed_row("Write8", &[Number, Number], Zero),
        Function::Write16 => fixed_row("Write16", &[Number, Number], Zero),
        Function::Write32 => fixed_row("Write32", &[Number, Number], Zero),
        Function::Write64 => fixed_row("Write64", &[Number, Number], Zero),
        Function::ReadAp => fixed_row("ReadAP", &[Number], Value),
        Function::WriteAp => fixed_row("WriteAP", &[Number, Number], Zero),
        Function::ReadDp => fixed_row("ReadDP", &[Number], Value),
        Function::WriteDp => fixed_row("WriteDP", &[Number, Number], Zero),
        Function::DapDelay => fixed_row("DAP_Delay", &[Number], Zero),
        Function::DapSwjClock => fixed_row("DAP_SWJ_Clock", &[Number], Zero),
        Function::DapWriteAbort => fixed_row("DAP_WriteABORT", &[Number], Zero),
        Function::DapSwjPins => fixed_row("DAP_SWJ_Pins", &[Number, Number, Number], PinByte),
        Function::DapSwjSequence => fixed_row("DAP_SWJ_Sequence", &[Number, Number], Zero),
        Function::DapJtagSequence => fixed_row("DAP_JTAG_Sequence", &[Number; 3], HaltsUnsupported),
        Function::Sequence => fixed_row("Sequence", &[Text], Zero),
        Function::Message => variadic_row("Message", &[Number, Text], Zero),
        Function::Query => fixed_row("Query", &[Number, Text, Number], Default),
        Function::QueryValue => fixed_row("QueryValue", &[Text, Number], Default),
        Function::LoadDebugInfo => fixed_row("LoadDebugInfo", &[Text], Zero),
    }
}

// The row of a function whose calls have as many arguments as there are parameters.
fn fixed_row(name: &'static str, parameters: &'static [ParameterKind], kind: ResultKind) -> Row
    ensures name { result.name.now ≡ name.now }
    ensures parameters { result.parameters.now ≡ parameters.now }
    ensures more { result.more ≡ false }
    ensures result { result.result ≡ kind }
{
    Row {
        name,
        parameters,
        more: false,
        result: kind,
    }
}

// The row of a function whose calls may have any number of further numbers.
fn variadic_row(name: &'static str, parameters: &'static [ParameterKind], kind: ResultKind) -> Row
    ensures name { result.name.now ≡ name.now }
    ensures parameters { result.parameters.now ≡ parameters.now }
    ensures more { result.more ≡ true }
    ensures result { result.result ≡ kind }
{
    Row {
        name,
        parameters,
        more: true,
        result: kind,
    }
}
