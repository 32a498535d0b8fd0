//! Faults, seen from further out. A fault comes once a job, so a path is written anew at each level.
ghost use Rattle.std.specs.Prelude.{◌≡◌, ◌∷◌, ◌++◌, [], ◌⊎◌, IfOk, IfSome};
ghost use Rattle.json_form.specs.Faults.{fault_at};
ghost use Rattle.json_form.specs.declared.path.PathStep.TheVariants.{Key, Index};

use crate::fault::JobFault;
use crate::path::{Path, PathStep};
use dap_base::{NameText, OutOfMemory};
use std::alloc::Global;

fn copy_of(alloc: Global, step: &PathStep) -> Result<PathStep, OutOfMemory>
    ensures { IfOk result (λ copy. copy ≡ step.now) }
{
    match step {
        PathStep::Key(name) => Ok(PathStep::Key(NameText::new(alloc, name.as_str())?)),
        PathStep::Index(index) => Ok(PathStep::Index(*index)),
    }
}

fn push_copies(alloc: Global, path: &mut Path, steps: &[PathStep]) -> Result<(), OutOfMemory>
    ensures { IfOk result (λ _. path.new ≡ path.old ++ steps.now) }
{
    for step in steps {
        path.push(copy_of(alloc, step)?)?;
    }
    Ok(())
}

// The path with a step before it. `None` where memory is refused.
fn prepend_step(alloc: Global, first: PathStep, path: &Path) -> Option<Path>
    ensures { IfSome result (λ longer. longer ≡ first ∷ path.now) }
{
    let mut longer = Path::new(alloc);
    longer.push(first).ok()?;
    push_copies(alloc, &mut longer, path.as_slice()).ok()?;
    Some(longer)
}

// The fault, seen from one step further out.
fn fault_under(alloc: Global, fault: JobFault, step: PathStep) -> JobFault
    ensures { (result ≡ fault_at step fault) ⊎ (result ≡ JobFault.OutOfMemory) }
{
    match fault {
        JobFault::Missing(path) => {
            prepend_step(alloc, step, &path).map_or(JobFault::OutOfMemory, JobFault::Missing)
        }
        JobFault::WrongKind(path) => {
            prepend_step(alloc, step, &path).map_or(JobFault::OutOfMemory, JobFault::WrongKind)
        }
        JobFault::UnknownKey(path) => {
            prepend_step(alloc, step, &path).map_or(JobFault::OutOfMemory, JobFault::UnknownKey)
        }
        JobFault::Repeated(path) => {
            prepend_step(alloc, step, &path).map_or(JobFault::OutOfMemory, JobFault::Repeated)
        }
        JobFault::BadNumber(path) => {
            prepend_step(alloc, step, &path).map_or(JobFault::OutOfMemory, JobFault::BadNumber)
        }
        JobFault::TooMany(path) => {
            prepend_step(alloc, step, &path).map_or(JobFault::OutOfMemory, JobFault::TooMany)
        }
        JobFault::OutOfMemory => JobFault::OutOfMemory,
    }
}

fn key_step(alloc: Global, key: &str) -> Option<PathStep>
    ensures { IfSome result (λ step. step ≡ Key key.now) }
{
    Some(PathStep::Key(NameText::new(alloc, key).ok()?))
}

fn only_key(alloc: Global, key: &str) -> Option<Path>
    ensures { IfSome result (λ path. path ≡ Key key.now ∷ []) }
{
    prepend_step(alloc, key_step(alloc, key)?, &Path::new(alloc))
}

fn only_index(alloc: Global, index: usize) -> Option<Path>
    ensures { IfSome result (λ path. path ≡ Index index ∷ []) }
{
    prepend_step(alloc, PathStep::Index(index as u64), &Path::new(alloc))
}

/// A fault inside the member `key`, as the object around it sees it.
pub fn fault_under_key(alloc: Global, fault: JobFault, key: &str) -> JobFault
    ensures { (result ≡ fault_at (Key key.now) fault) ⊎ (result ≡ JobFault.OutOfMemory) }
{
    match key_step(alloc, key) {
        Some(step) => fault_under(alloc, fault, step),
        None => JobFault::OutOfMemory,
    }
}

/// A fault inside the item with the number `index`, as the list around it sees it.
pub fn fault_under_index(alloc: Global, fault: JobFault, index: usize) -> JobFault
    ensures { (result ≡ fault_at (Index index) fault) ⊎ (result ≡ JobFault.OutOfMemory) }
{
    fault_under(alloc, fault, PathStep::Index(index as u64))
}

/// The fault of an object without the required member `key`.
pub fn missing_fault(alloc: Global, key: &str) -> JobFault
    ensures { (result ≡ JobFault.Missing (Key key.now ∷ [])) ⊎ (result ≡ JobFault.OutOfMemory) }
{
    only_key(alloc, key).map_or(JobFault::OutOfMemory, JobFault::Missing)
}

/// The fault of an object with the other member `key`.
pub(crate) fn unknown_key(alloc: Global, key: &str) -> JobFault
    ensures { (result ≡ JobFault.UnknownKey (Key key.now ∷ [])) ⊎ (result ≡ JobFault.OutOfMemory) }
{
    only_key(alloc, key).map_or(JobFault::OutOfMemory, JobFault::UnknownKey)
}

/// The fault of a list whose item `index` is the same as an earlier one.
pub(crate) fn repeated_fault(alloc: Global, index: usize) -> JobFault
    ensures { (result ≡ JobFault.Repeated (Index index ∷ [])) ⊎ (result ≡ JobFault.OutOfMemory) }
{
    only_index(alloc, index).map_or(JobFault::OutOfMemory, JobFault::Repeated)
}
