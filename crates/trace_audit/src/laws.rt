//! Laws of traces, as contracts of functions that do nothing.
ghost use Rattle.std.specs.Prelude.{◌≡◌, ◌⊎◌, ℕ, List, true};
ghost use Rattle.probe_core.specs.Log.{Entry};
ghost use Rattle.probe_core.specs.Probe.{ProbeState};
ghost use Rattle.probe_core.specs.Runs.{IsRun};
ghost use Rattle.trace_audit.specs.Audits.{IsFirstWrong};
ghost use Rattle.trace_audit.specs.Texts.{AreEntriesOf, IsEntry, is_entry_text};
ghost use Rattle.trace_audit.specs.declared.auditing.AuditFault.{AuditFault};

/// A run leads to one probe.
pub fn one_end()
    ensures { (first p q : ProbeState) (es : List Entry) → IsRun first es p → IsRun first es q → p ≡ q }
{}

/// A trace has one first entry that cannot come, for one reason; and then it is no run.
pub fn one_fault()
    ensures fault { (first : ProbeState) (es : List Entry) (x y : AuditFault) → IsFirstWrong first es x → IsFirstWrong first es y → x ≡ y }
    ensures run { (first last : ProbeState) (es : List Entry) (x : AuditFault) → IsFirstWrong first es x → IsRun first es last → ⊥ }
{}

/// Each trace is a run of the probe, or has a first entry that cannot come.
pub fn run_or_fault()
    ensures { (first : ProbeState) (es : List Entry) → ((last : ProbeState) × IsRun first es last) ⊎ ((fault : AuditFault) × IsFirstWrong first es fault) }
{}

/// A text is that of an entry exactly where the test says so; and texts are those of one list of entries.
pub fn one_entry()
    ensures entry { (text : List ℕ) → is_entry_text text ≡ true → IsEntry text }
    ensures test { (text : List ℕ) → IsEntry text → is_entry_text text ≡ true }
    ensures entries { (texts : List (List ℕ)) (xs ys : List Entry) → AreEntriesOf texts xs → AreEntriesOf texts ys → xs ≡ ys }
{}
