//! Members of objects.
ghost use Rattle.std.specs.Prelude.{◌≡◌};
ghost use Rattle.serde_json.specs.View.{view};
ghost use Rattle.json_form.specs.Faults.{Gives, at};
ghost use Rattle.json_form.specs.Reading.{required_value, optional, or_else};
ghost use Rattle.json_form.specs.declared.path.PathStep.TheVariants.{Key};

use crate::fault::JobFault;
use crate::placed::{fault_under_key, missing_fault};
use crate::reader::Reader;
use serde_json::Value;
use std::alloc::Global;

fn member_of<R: Reader>(
    alloc: Global,
    member: &Value,
    key: &str,
    reader: &R,
) -> Result<R::Item, JobFault>
    ensures { Gives result (at (Key key.now) (R.reads reader.now (view member.now))) }
{
    match reader.read(alloc, member) {
        Ok(item) => Ok(item),
        Err(fault) => Err(fault_under_key(alloc, fault, key)),
    }
}

/// A member that has to be there. `Missing` where it is not.
#[tactic(auto, unfolding(crate::specs::Reading::required_value))]
pub fn required_of<R: Reader>(
    alloc: Global,
    object: &Value,
    key: &str,
    reader: &R,
) -> Result<R::Item, JobFault>
    ensures { Gives result (required_value key.now (R.reads reader.now) (view object.now)) }
{
    match object.get(key) {
        Some(member) => member_of(alloc, member, key, reader),
        None => Err(missing_fault(alloc, key)),
    }
}

/// A member that may be absent.
#[tactic(auto, unfolding(crate::specs::Reading::optional))]
pub fn optional_of<R: Reader>(
    alloc: Global,
    object: &Value,
    key: &str,
    reader: &R,
) -> Result<Option<R::Item>, JobFault>
    ensures { Gives result (optional key.now (R.reads reader.now) (view object.now)) }
{
    match object.get(key) {
        Some(member) => Ok(Some(member_of(alloc, member, key, reader)?)),
        None => Ok(None),
    }
}

/// A member, or `other` where it is absent.
#[tactic(auto, unfolding(crate::specs::Reading::or_else))]
pub fn member_or<R: Reader>(
    alloc: Global,
    object: &Value,
    key: &str,
    reader: &R,
    other: R::Item,
) -> Result<R::Item, JobFault>
    ensures { Gives result (or_else key.now (R.reads reader.now) other (view object.now)) }
{
    match object.get(key) {
        Some(member) => member_of(alloc, member, key, reader),
        None => Ok(other),
    }
}
