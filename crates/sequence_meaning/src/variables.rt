//! The variables that a run answers.
ghost use Rattle.std.specs.Prelude.{◌≡◌, IfOk};
ghost use Rattle.sequence_rules.specs.Shared.{bindings_of};
ghost use Rattle.sequence_rules.specs.Runs.{variables_of};

use dap_base::{NameText, OutOfMemory};
use sequence_rules::Globals;
use std::alloc::Global;
use target_machine::{Variable, Variables};

// The variables that all sequences share, as an answer has them.
pub(crate) fn copy_variables(
    alloc: Global,
    globals: &Globals<u64>,
) -> Result<Variables, OutOfMemory>
    ensures { IfOk result (λ variables. variables_of variables ≡ bindings_of globals.now) }
{
    let mut variables = Variables::new(alloc);
    let mut index = 0;
    while index < globals.len() {
        let Some((name, value)) = globals.at(index) else {
            return Err(OutOfMemory);
        };
        let name = NameText::new(alloc, name)?;
        variables.push(Variable { name, value })?;
        index += 1;
    }
    Ok(variables)
}
