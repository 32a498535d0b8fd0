//! Laws of the warnings of sets, as the contracts of functions that do nothing.
ghost use Rattle.std.specs.Prelude.{◌≡◌, List};
ghost use Rattle.sequence_resolve.specs.declared.entry.SeqSet.{SeqSet};
ghost use Rattle.set_warnings.specs.declared.warning.Warning.{Warning};
ghost use Rattle.set_warnings.specs.Answers.{AreSetWarnings};

/// A set has one list of warnings.
pub fn one_list()
    ensures { (set : SeqSet) (warnings other : List Warning) → AreSetWarnings set warnings → AreSetWarnings set other → warnings ≡ other }
{}
