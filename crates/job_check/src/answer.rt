//! The valid set of a job for one device, and why a job has none.
use dap_base::{OutOfMemory, Place};
use device_tree::JobFault;
use hex_image::ImageKind;
use seq_check::{Checked, FaultKind};
use sequence_resolve::SeqSet;
use sequence_trees::Spot;

/// A valid set of sequences, and the trees of its texts.
#[derive(Debug, Drop)]
pub struct ValidSet {
    /// The sequences that apply to the device, and where each comes from.
    pub set: SeqSet,
    /// The trees that the grammar gives the texts of this set.
    pub trees: Checked,
}

/// What is wrong with the starting values of a job.
#[derive(Clone, Copy, Debug, PartialEq, Eq)]
pub enum DbgconfKind {
    /// No token, blank or comment can be taken there.
    BadToken,
    /// No names and values begin with the tokens up to there, or they break off there.
    Unexpected,
    /// The name stands before.
    Repeated,
    /// No `__var` of the debug variables declares the name.
    UndefinedName,
}

/// Why the sequences of a device are refused.
#[derive(Debug, Drop)]
pub enum Refusal {
    /// The bytes are no JSON text.
    BadJson,
    /// The JSON value stands for no job, or has no image where the mode needs one; this is its first fault, never `OutOfMemory`.
    Job(JobFault),
    /// The text of the image is none. With its first fault, and the number of that line, from 1. Only a mode that needs
    /// the image is refused so.
    Image(ImageKind, u64),
    /// The starting values can not be read, or can not be put in; with their first fault, and its place in
    /// their text.
    Dbgconf(DbgconfKind, Place),
    /// No device of the pack has the name.
    NoDevice,
    /// Two or more devices of the pack have the name.
    AmbiguousDevice,
    /// The device has no variant of the name.
    NoVariant,
    /// The set of sequences is not valid; this is its first fault, and its place.
    Check(FaultKind, Spot),
}

/// Why there is no valid set of sequences.
#[derive(Debug, Drop)]
pub enum CheckRefusal {
    /// The job is refused, for this reason.
    Refused(Refusal),
    /// Memory was refused.
    OutOfMemory,
}

impl From<OutOfMemory> for CheckRefusal {
    ghost use Rattle.std.specs.Prelude.{◌≡◌};
    ghost use Rattle.job_check.specs.declared.answer.CheckRefusal.TheVariants as ends;

    ghost from_gives = { λ _ end. end ≡ ends.OutOfMemory };

    fn from(_refused: OutOfMemory) -> CheckRefusal {
        CheckRefusal::OutOfMemory
    }
}
