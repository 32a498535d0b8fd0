//! A call of the program `dapseq_words`.
ghost use Rattle.std.specs.Prelude.{◌≡◌, ◌≢◌, ℕ, List, [], IfOk, Some, None, false};
ghost use Rattle.std.specs.Option.{option_copied};
ghost use Rattle.tool_calls.specs.Calls.{Blames};
ghost use Rattle.trace_compare.specs.Blames.{BlamesEach, BlamesFile, is_of_file, WritesInto};
ghost use Rattle.trace_compare.specs.Calls.{words_exit_code, file_named, not_opened_line, WritesWords, WritesAgainst, WritesFile, WritesRefusal, WritesUsage};

use crate::compare::{CompareEnd, compare_traces};
use crate::file::NamedFile;
use dap_base::{OutOfMemory, Sink, Source, Words};
use std::alloc::Global;
use text_lines::Line;
use trace_words::{TraceEnd, trace_words};

/// How a call of `dapseq_words` ended.
#[derive(Clone, Copy, Debug, PartialEq, Eq)]
pub enum CompareStatus {
    /// Each packet and reply is one; two traces are alike.
    Done,
    /// Some packet or reply is none, or two traces differ.
    Wrong,
    /// The words after the program's name are wrong.
    Usage,
    /// The source failed.
    ReadFault,
    /// The file failed.
    FileFault,
    /// The file cannot be opened.
    NotOpened,
    /// The sink failed.
    WriteFault,
    /// Memory was refused.
    OutOfMemory,
}

impl CompareStatus {
    /// The number with which the program ends: 0, 1 and 2 in the order of the variants, 5 where an input failed, then 6
    /// and 7.
    pub fn code(&self) -> u8
        ensures { result ≡ words_exit_code self.now }
    {
        match self {
            CompareStatus::Done => 0,
            CompareStatus::Wrong => 1,
            CompareStatus::Usage => 2,
            CompareStatus::ReadFault | CompareStatus::FileFault | CompareStatus::NotOpened => 5,
            CompareStatus::WriteFault => 6,
            CompareStatus::OutOfMemory => 7,
        }
    }
}

// The line of a wrong call.
fn write_usage<K: Sink>(sink: &mut K) -> CompareStatus
    ensures { WritesInto WritesUsage result K.written K.faults sink.old sink.new }
{
    match sink.put(b"usage dapseq_words [--against FILE] < TRACE\n") {
        Ok(()) => CompareStatus::Usage,
        Err(_) => CompareStatus::WriteFault,
    }
}

// The name after `--against`, where the words are these two.
fn file_named(words: &Words) -> Option<&str>
    ensures { option_copied result ≡ file_named words.now }
{
    match words.as_slice() {
        [option, name] if option.as_str() == "--against" => Some(name.as_str()),
        _ => None,
    }
}

// The line of a file that cannot be opened.
#[tactic(auto, unfolding(crate::specs::Calls::not_opened_line))]
fn refusal_line(alloc: Global, name: &str) -> Result<Line, OutOfMemory>
    ensures { IfOk result (λ line. line ≡ not_opened_line name.now) }
{
    let line = Line::begin(alloc, "file ")?.add_shown(name.as_bytes())?;
    line.text(" cannot be opened\n")
}

// Writes it.
fn write_refusal<K: Sink>(alloc: Global, name: &str, sink: &mut K) -> CompareStatus
    ensures { WritesInto (WritesRefusal name.now) result K.written K.faults sink.old sink.new }
{
    let Ok(line) = refusal_line(alloc, name) else {
        return CompareStatus::OutOfMemory;
    };
    match sink.put(line.as_bytes()) {
        Ok(()) => CompareStatus::NotOpened,
        Err(_) => CompareStatus::WriteFault,
    }
}

// A call without words.
fn write_words<S: Source, K: Sink>(alloc: Global, source: &mut S, sink: &mut K) -> CompareStatus
    ensures words { (bytes : List ℕ) → S.left source.old ≡ Some bytes → WritesWords bytes result (K.written sink.old) (K.written sink.new) }
    ensures source { Blames CompareStatus.ReadFault result (S.faults source.old) (S.faults source.new) }
    ensures sink { Blames CompareStatus.WriteFault result (K.faults sink.old) (K.faults sink.new) }
    ensures file { is_of_file result ≡ false }
{
    match trace_words(alloc, source, sink) {
        Ok(true) => CompareStatus::Done,
        Ok(false) => CompareStatus::Wrong,
        Err(TraceEnd::ReadFault) => CompareStatus::ReadFault,
        Err(TraceEnd::WriteFault) => CompareStatus::WriteFault,
        Err(TraceEnd::OutOfMemory) => CompareStatus::OutOfMemory,
    }
}

// A comparison with the file that is open.
fn write_comparison<S: Source, F: Source, K: Sink>(
    alloc: Global,
    source: &mut S,
    file: &mut F,
    sink: &mut K,
) -> CompareStatus
    ensures text { (bytes others : List ℕ) → S.left source.old ≡ Some bytes → F.left file.old ≡ Some others
        → WritesAgainst bytes others result (K.written sink.old) (K.written sink.new) }
    ensures faults { BlamesEach result (S.faults source.old) (S.faults source.new) (F.faults file.old) (F.faults file.new) (K.faults sink.old) (K.faults sink.new) }
{
    match compare_traces(alloc, source, file, sink) {
        Ok(true) => CompareStatus::Done,
        Ok(false) => CompareStatus::Wrong,
        Err(CompareEnd::ReadFault) => CompareStatus::ReadFault,
        Err(CompareEnd::AgainstFault) => CompareStatus::FileFault,
        Err(CompareEnd::WriteFault) => CompareStatus::WriteFault,
        Err(CompareEnd::OutOfMemory) => CompareStatus::OutOfMemory,
    }
}

// A comparison with the file of this name.
fn write_against<S: Source, F: NamedFile, K: Sink>(
    alloc: Global,
    name: &str,
    source: &mut S,
    file: &mut F,
    sink: &mut K,
) -> CompareStatus
    ensures text { (bytes others : List ℕ) → S.left source.old ≡ Some bytes → F.contents file.old name.now ≡ Some others
        → WritesFile name.now bytes others result (K.written sink.old) (K.written sink.new) }
    ensures faults { BlamesEach result (S.faults source.old) (S.faults source.new) (F.faults file.old) (F.faults file.new) (K.faults sink.old) (K.faults sink.new) }
{
    match file.open(name) {
        Ok(()) => write_comparison(alloc, source, file, sink),
        Err(_) => write_refusal(alloc, name, sink),
    }
}

/// A call with these words after the program's name. Without words it writes the words of the trace that the source
/// has. With `--against` and a name it writes the comparison of this trace with that of the file of this name, or the
/// line of a file that cannot be opened. With any other words it writes the line of a wrong call, and the source and
/// the file are as they were.
pub fn dapseq_words<S: Source, F: NamedFile, K: Sink>(
    alloc: Global,
    words: &Words,
    source: &mut S,
    file: &mut F,
    sink: &mut K,
) -> CompareStatus
    // The words of all bytes of the source, where they are known; at a fault a part of them, from the front.
    ensures words { words.now ≡ [] → (bytes : List ℕ) → S.left source.old ≡ Some bytes
        → WritesWords bytes result (K.written sink.old) (K.written sink.new) }
    // The comparison of all bytes of both, where they are known; at a fault a part of it, from the front.
    ensures against { (name : List ℕ) → file_named words.now ≡ Some name
        → (bytes others : List ℕ) → S.left source.old ≡ Some bytes → F.contents file.old name ≡ Some others
        → WritesFile name bytes others result (K.written sink.old) (K.written sink.new) }
    // With other words after the name, the line of a wrong call.
    ensures usage { words.now ≢ [] → file_named words.now ≡ None → WritesUsage result (K.written sink.old) (K.written sink.new) }
    ensures unread { words.now ≢ [] → file_named words.now ≡ None → source.new ≡ source.old }
    ensures unopened { file_named words.now ≡ None → file.new ≡ file.old }
    // A fault is that of the object that failed.
    ensures source { Blames CompareStatus.ReadFault result (S.faults source.old) (S.faults source.new) }
    ensures file { BlamesFile result (F.faults file.old) (F.faults file.new) }
    ensures sink { Blames CompareStatus.WriteFault result (K.faults sink.old) (K.faults sink.new) }
{
    if words.is_empty() {
        return write_words(alloc, source, sink);
    }
    match file_named(words) {
        Some(name) => write_against(alloc, name, source, file, sink),
        None => write_usage(sink),
    }
}
