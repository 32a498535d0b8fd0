//! Laws of the lists of faults, as the contracts of functions that do nothing.

ghost use Rattle.std.specs.Prelude.{◌≡◌, ◌↔◌, ◌∷◌, [], List};
ghost use Rattle.sequence_resolve.specs.declared.entry.SeqSet.{SeqSet};
ghost use Rattle.sequence_trees.specs.Trees.{SetTrees};
ghost use Rattle.seq_check.specs.SetFaults.{SetFault, FaultInSet};
ghost use Rattle.seq_check.specs.Valid.{IsFirstOf, IsValid, IsFirstFaultOf};
ghost use Rattle.set_faults.specs.declared.site.Fault.{Fault};
ghost use Rattle.set_faults.specs.declared.phase.SetFaults.{SetFaults};
ghost use Rattle.set_faults.specs.Answers.{AreSetFaults};
ghost use Rattle.set_faults.specs.Syntax.{AreSyntaxFaults};
ghost use Rattle.set_faults.specs.Rules.{AreRuleFaults};

/// A set has one answer.
pub fn one_answer()
    ensures { (set : SeqSet) (answer other : SetFaults) → AreSetFaults set answer → AreSetFaults set other → answer ≡ other }
{}

/// The head of its list is the first fault of the set, which `seq_check::check` reports.
pub fn head_is_first()
    ensures { (set : SeqSet) (answer : SetFaults) (fault : Fault) (more : List Fault) → AreSetFaults set answer
        → answer.faults ≡ fault ∷ more → IsFirstFaultOf set fault.kind fault.spot }
{}

/// The list is empty exactly where the set is valid.
pub fn empty_where_valid()
    ensures { (set : SeqSet) (answer : SetFaults) → AreSetFaults set answer → (answer.faults ≡ []) ↔ IsValid set }
{}

/// A set has one list of texts that can not be read.
pub fn one_syntax_list()
    ensures { (set : SeqSet) (faults other : List Fault) → AreSyntaxFaults set faults → AreSyntaxFaults set other → faults ≡ other }
{}

/// The head of that list is the first fault of the set, as it is checked.
pub fn first_syntax_fault()
    ensures { (set : SeqSet) (fault : Fault) (more : List Fault) → AreSyntaxFaults set (fault ∷ more) → IsFirstFaultOf set fault.kind fault.spot }
{}

/// A set that was read has one list of faults of names, arguments and steps.
pub fn one_rule_list()
    ensures { (set : SetTrees) (faults other : List Fault) → AreRuleFaults set faults → AreRuleFaults set other → faults ≡ other }
{}

/// The head of that list is the first fault of the set, as it is checked.
pub fn first_rule_fault()
    ensures { (set : SetTrees) (fault : Fault) (more : List Fault) → AreRuleFaults set (fault ∷ more) → IsFirstOf set fault.kind fault.spot }
{}

/// Where that list is empty, there is no such fault in the set.
pub fn no_rule_fault()
    ensures { (set : SetTrees) (f : SetFault) → AreRuleFaults set [] → FaultInSet set f → ⊥ }
{}
