//! Why a value is refused.
ghost use Rattle.std.specs.Prelude.{◌≡◌};
ghost use Rattle.std.specs.Option.{option_copied};
ghost use Rattle.json_form.specs.Faults.{fault_name, fault_path};

use crate::path::Path;
use dap_base::OutOfMemory;

/// The first fault of a value, with the path of the value or key that is faulty.
#[derive(Debug, Drop)]
pub enum JobFault {
    /// A required key is absent. The path ends with the key.
    Missing(Path),
    /// A value is of another kind than the one that is read here.
    WrongKind(Path),
    /// An object has a key that it may not have. The path ends with the key.
    UnknownKey(Path),
    /// An item of a list is the same as an earlier one. The path ends with the item's number.
    Repeated(Path),
    /// A number or the text of one is malformed, outside its range or fails a further condition.
    BadNumber(Path),
    /// A list is longer than its limit.
    TooMany(Path),
    /// Memory was refused.
    OutOfMemory,
}

impl JobFault {
    /// The name of what is wrong, as the variant is spelled.
    pub fn name(&self) -> &'static str
        ensures { result.now ≡ fault_name self.now }
    {
        match self {
            JobFault::Missing(_) => "Missing",
            JobFault::WrongKind(_) => "WrongKind",
            JobFault::UnknownKey(_) => "UnknownKey",
            JobFault::Repeated(_) => "Repeated",
            JobFault::BadNumber(_) => "BadNumber",
            JobFault::TooMany(_) => "TooMany",
            JobFault::OutOfMemory => "OutOfMemory",
        }
    }

    /// The path of the value or key that is faulty. `None` where memory was refused, and only there.
    pub fn path(&self) -> Option<&Path>
        ensures { option_copied result ≡ fault_path self.now }
    {
        match self {
            JobFault::Missing(path)
            | JobFault::WrongKind(path)
            | JobFault::UnknownKey(path)
            | JobFault::Repeated(path)
            | JobFault::BadNumber(path)
            | JobFault::TooMany(path) => Some(path),
            JobFault::OutOfMemory => None,
        }
    }
}

impl From<OutOfMemory> for JobFault {
    ghost use Rattle.std.specs.Prelude.{◌≡◌};
    ghost use Rattle.json_form.specs.declared.fault.JobFault.TheVariants as faults;

    ghost from_gives = { λ _ fault. fault ≡ faults.OutOfMemory };

    fn from(_refused: OutOfMemory) -> JobFault {
        JobFault::OutOfMemory
    }
}
