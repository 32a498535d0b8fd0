//! What a call is asked for.
ghost use Rattle.std.specs.Prelude.{◌≡◌, ℕ, List, Some, IfOk, OnOk, IsErrOf};
ghost use Rattle.text_lines.specs.Causes.{NamesFault};
ghost use Rattle.faults_words.specs.Asks as words_asked;
ghost use Rattle.faults_tool.specs.Asked.{AsksForFaults, AsksOfPack, AsksOfPackBytes, IsFaultsLine, IsList, answer_of_pack_refusal};
ghost use Rattle.job_source.specs.Source.{AreBytesOf, AreTaken};
ghost use Rattle.tool_calls.specs.Calls.{ReadsJob};

use crate::packs::read_pack;
use dap_base::{ItemList, OutOfMemory, Source, Words};
use device_tree::Pack;
use faults_words::{FaultsCommand, Format, WordsError, asked_of};
use job_check::{CheckRefusal, Refusal};
use job_source::{Unread, read_job};
use pack_faults::{PackFaults, PackRefusal, PackRequest, pack_faults};
use pack_warnings::{PackWarning, pack_warnings};
use std::alloc::Global;
use tool_calls::Unasked;

/// What is answered.
#[derive(Drop)]
pub enum FaultsAnswer {
    /// The words ask for nothing.
    Usage,
    /// The source has more bytes than a job may have.
    TooLong,
    /// The job is refused, or its pack has no set of the names.
    Refused(Refusal),
    /// No sequence for the devices and variants has the `Pname`.
    NoPname,
    /// All faults of the sets that are requested, and how they are written.
    Faults(Format, PackFaults),
    /// The same, and all warnings of these sets.
    Warned(Format, PackFaults, ItemList<PackWarning>),
}

// What is answered where there is no set.
fn refused_by(refusal: PackRefusal) -> Result<FaultsAnswer, OutOfMemory>
    ensures { IfOk result (λ answer. answer_of_pack_refusal refusal ≡ Some answer) }
{
    match refusal {
        PackRefusal::NoDevice => Ok(FaultsAnswer::Refused(Refusal::NoDevice)),
        PackRefusal::NoVariant => Ok(FaultsAnswer::Refused(Refusal::NoVariant)),
        PackRefusal::NoPname => Ok(FaultsAnswer::NoPname),
        PackRefusal::OutOfMemory => Err(OutOfMemory),
    }
}

// The faults of the sets, with their warnings where these are asked for.
fn list_of(
    alloc: Global,
    pack: &Pack,
    request: &PackRequest,
    format: Format,
    warnings: bool,
    faults: PackFaults,
) -> Result<FaultsAnswer, OutOfMemory>
    ensures { IfOk result (IsList pack.now request.now format warnings faults) }
{
    if !warnings {
        return Ok(FaultsAnswer::Faults(format, faults));
    }
    match pack_warnings(alloc, pack, request) {
        Ok(warnings) => Ok(FaultsAnswer::Warned(format, faults, warnings)),
        Err(_) => Err(OutOfMemory),
    }
}

// What is asked for of a pack.
fn ask_of_pack(
    alloc: Global,
    asked: FaultsCommand,
    pack: &Pack,
) -> Result<FaultsAnswer, OutOfMemory>
    ensures { IfOk result (AsksOfPack pack.now asked) }
{
    let request = PackRequest {
        device: asked.device,
        variant: asked.variant,
        pname: asked.pname,
    };
    match pack_faults(alloc, pack, &request) {
        Ok(faults) => list_of(alloc, pack, &request, asked.format, asked.warnings, faults),
        Err(refusal) => refused_by(refusal),
    }
}

// What is asked for of the bytes of a job.
fn ask_of_bytes(
    alloc: Global,
    asked: FaultsCommand,
    bytes: &[u8],
) -> Result<FaultsAnswer, OutOfMemory>
    ensures { IfOk result (AsksOfPackBytes bytes.now asked) }
{
    match read_pack(alloc, bytes) {
        Ok(pack) => ask_of_pack(alloc, asked, &pack),
        Err(CheckRefusal::Refused(refusal)) => Ok(FaultsAnswer::Refused(refusal)),
        Err(CheckRefusal::OutOfMemory) => Err(OutOfMemory),
    }
}

// What the source asks for.
fn ask_of_source<S: Source>(
    alloc: Global,
    asked: FaultsCommand,
    source: &mut S,
) -> Result<FaultsAnswer, Unasked>
    ensures asked { (given : List (List ℕ)) → words_asked.WordsAskForFaults given asked
        → IfOk result (λ answer. (bytes : List ℕ) × AreBytesOf (S.left source.old) bytes × AsksForFaults given bytes answer) }
    ensures reads { ReadsJob result (S.left source.old) (S.left source.new) (S.faults source.old) (S.faults source.new) }
{
    let bytes = match read_job(alloc, source) {
        Ok(bytes) => bytes,
        Err(Unread::TooLong) => return Ok(FaultsAnswer::TooLong),
        Err(Unread::Failed) => return Err(Unasked::ReadFault),
        Err(Unread::OutOfMemory) => return Err(Unasked::OutOfMemory),
    };
    match ask_of_bytes(alloc, asked, &bytes) {
        Ok(answer) => Ok(answer),
        Err(OutOfMemory) => Err(Unasked::OutOfMemory),
    }
}

/// What the words and the source ask for. Where the words ask for nothing, the source is not read.
pub fn ask<S: Source>(alloc: Global, words: &Words, source: &mut S) -> Result<FaultsAnswer, Unasked>
    ensures asked { IfOk result (λ answer. (bytes : List ℕ) × AreBytesOf (S.left source.old) bytes × AsksForFaults words.now bytes answer) }
    ensures taken { OnOk result (IsFaultsLine words.now → AreTaken (S.left source.old) (S.left source.new)) }
    ensures unread { (IsFaultsLine words.now → ⊥) → source.new ≡ source.old }
    ensures fault { IsErrOf result Unasked.ReadFault → IsFaultsLine words.now }
    ensures source { NamesFault Unasked.ReadFault (S.faults source.old) (S.faults source.new) result }
{
    match asked_of(alloc, words) {
        Ok(asked) => ask_of_source(alloc, asked, source),
        Err(WordsError::Usage) => Ok(FaultsAnswer::Usage),
        Err(WordsError::OutOfMemory) => Err(Unasked::OutOfMemory),
    }
}
