//! Laws of checks and of runs, as the contracts of functions that do nothing.
ghost use Rattle.std.specs.Prelude.{◌≡◌, ◌⊎◌, ◌<◌, ◌^◌, ℕ, List, length, Result};
ghost use Rattle.expr_grammar.specs.Bare.{bare_code};
ghost use Rattle.expr_grammar.specs.Tree.{StmtTree};
ghost use Rattle.sequence_resolve.specs.declared.selection.Selection.{Selection};
ghost use Rattle.sequence_resolve.specs.declared.entry.SeqSet.{SeqSet};
ghost use Rattle.sequence_trees.specs.Reading.{ReadsSet};
ghost use Rattle.sequence_trees.specs.Texts.{IsCodeOf};
ghost use Rattle.sequence_trees.specs.Trees.{SetTrees};
ghost use Rattle.seq_check.specs.Answers.{checked_trees};
ghost use Rattle.job_text.specs.declared.job.Job.{Job};
ghost use Rattle.job_text.specs.Answers.{Describes};
ghost use Rattle.dbgconf_text.specs.declared.conf.ConfItem.{ConfItem};
ghost use Rattle.dbgconf_text.specs.Cuts.{with_values};
ghost use Rattle.dbgconf_text.specs.Replacing.{settings_of};
ghost use Rattle.job_check.specs.declared.answer.Refusal.{Refusal};
ghost use Rattle.job_check.specs.Answers.{IsAnswerOf, IsCheckAnswer};
ghost use Rattle.job_check.specs.Running.{HasPlain, HasRun, HasRunFor, IsRefusedRun, IsRefusedRunFor, IsRunFor, IsRunOfJob, IsSameRun, IsValidRun};
ghost use Rattle.job_check.specs.declared.own.Own.{Own};
ghost use Rattle.job_check.specs.declared.running.RunRefusal.{RunRefusal};
ghost use Rattle.job_check.specs.declared.running.ValidRun.{ValidRun};

/// A job and a selection have one answer at most.
pub fn one_answer_of_a_job()
    ensures { (job : Job) (selection : Selection) (x y : Result SeqSet Refusal) → IsAnswerOf job selection x → IsAnswerOf job selection y → x ≡ y }
{}

/// A job and a selection have an answer.
pub fn some_answer_of_a_job()
    ensures { (job : Job) (selection : Selection) → (answer : Result SeqSet Refusal) × IsAnswerOf job selection answer }
{}

/// The bytes of a job and a selection have one answer at most.
pub fn one_answer()
    ensures { (bytes : List ℕ) (selection : Selection) (x y : Result SeqSet Refusal)
        → IsCheckAnswer bytes selection x → IsCheckAnswer bytes selection y → x ≡ y }
{}

/// The bytes of a job and a selection have an answer.
pub fn some_answer()
    ensures { (bytes : List ℕ) (selection : Selection) → (answer : Result SeqSet Refusal) × IsCheckAnswer bytes selection answer }
{}

/// The bytes of a job, what the mode needs of it, a selection and a name have one run at most, or one reason why none runs.
pub fn one_run()
    ensures run { (bytes : List ℕ) (own : Own) (selection : Selection) (name : List ℕ) (x y : ValidRun)
        → IsValidRun bytes own selection name x → IsValidRun bytes own selection name y → IsSameRun x y }
    ensures refusal { (bytes : List ℕ) (own : Own) (selection : Selection) (name : List ℕ) (x y : RunRefusal)
        → IsRefusedRun bytes own selection name x → IsRefusedRun bytes own selection name y → x ≡ y }
    ensures either { (bytes : List ℕ) (own : Own) (selection : Selection) (name : List ℕ) (x : ValidRun) (y : RunRefusal)
        → IsValidRun bytes own selection name x → IsRefusedRun bytes own selection name y → ⊥ }
{}

/// The bytes of a job, what the mode needs of it, a selection and a name have a run, or a reason why none runs. What runs is a `ValidRun` where there
/// are fewer bytes than 2^63.
pub fn run_or_reason()
    ensures either { (bytes : List ℕ) (own : Own) (selection : Selection) (name : List ℕ)
        → HasRun bytes own selection name ⊎ ((end : RunRefusal) × IsRefusedRun bytes own selection name end) }
    ensures run { (bytes : List ℕ) (own : Own) (selection : Selection) (name : List ℕ) → length bytes < 2 ^ 63
        → ((run : ValidRun) × IsValidRun bytes own selection name run) ⊎ ((end : RunRefusal) × IsRefusedRun bytes own selection name end) }
{}

/// A job, what the mode needs of it, a selection and a name have one run at most, or one reason why none runs.
pub fn one_run_of_a_job()
    ensures run { (own : Own) (selection : Selection) (name : List ℕ) (x y : ValidRun)
        → x.job ≡ y.job → IsRunFor own selection name x → IsRunFor own selection name y → IsSameRun x y }
    ensures refusal { (job : Job) (own : Own) (selection : Selection) (name : List ℕ) (x y : RunRefusal)
        → IsRefusedRunFor job own selection name x → IsRefusedRunFor job own selection name y → x ≡ y }
    ensures either { (own : Own) (selection : Selection) (name : List ℕ) (x : ValidRun) (y : RunRefusal)
        → IsRunFor own selection name x → IsRefusedRunFor x.job own selection name y → ⊥ }
{}

/// A job, what the mode needs of it, a selection and a name have a run, or a reason why none runs. What runs is a `ValidRun` where the job is that of
/// fewer bytes than 2^63.
pub fn run_or_reason_of_a_job()
    ensures either { (job : Job) (own : Own) (selection : Selection) (name : List ℕ)
        → HasRunFor job own selection name ⊎ ((end : RunRefusal) × IsRefusedRunFor job own selection name end) }
    ensures run { (bytes : List ℕ) (job : Job) (own : Own) (selection : Selection) (name : List ℕ) → length bytes < 2 ^ 63 → Describes bytes job
        → ((run : ValidRun) × (run.job ≡ job) × IsRunFor own selection name run) ⊎ ((end : RunRefusal) × IsRefusedRunFor job own selection name end) }
{}

/// Let the debug variables of a selection be code as they are. Then those of a run are this code with the starting values of the job, apart
/// from places. The trees of its sequences are as they are.
pub fn values_are_put_in()
    ensures debugvars { (selection : Selection) (name : List ℕ) (run : ValidRun) → IsRunOfJob selection name run
        → (items : List ConfItem) (plain : SeqSet) → HasPlain run.job selection items plain → (code : List StmtTree) → IsCodeOf plain.debugvars code
        → bare_code (checked_trees run.trees).debugvars ≡ bare_code (with_values (settings_of items) code) }
    ensures sequences { (selection : Selection) (name : List ℕ) (run : ValidRun) → IsRunOfJob selection name run
        → (items : List ConfItem) (plain : SeqSet) → HasPlain run.job selection items plain → (trees : SetTrees) → ReadsSet plain trees
        → (checked_trees run.trees).sequences ≡ trees.sequences }
{}
