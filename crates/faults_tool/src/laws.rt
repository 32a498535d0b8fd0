//! Laws of calls, as the contracts of functions that do nothing.
ghost use Rattle.std.specs.Prelude.{◌≡◌, ◌↔◌, ℕ, List};
ghost use Rattle.serde_json.specs.Data.{Data};
ghost use Rattle.job_text.specs.JobForm.{IsJob};
ghost use Rattle.job_text.specs.declared.job.Job.{Job};
ghost use Rattle.faults_words.specs.declared.answer.FaultsCommand.{FaultsCommand};
ghost use Rattle.faults_tool.specs.Answers.{faults_answer_status};
ghost use Rattle.faults_tool.specs.Asked.{request_of_words, AreAllValid, AsksForFaults, AsksOfPackBytes};
ghost use Rattle.faults_tool.specs.Packs.{HasPack};
ghost use Rattle.faults_tool.specs.declared.asking.FaultsAnswer.{FaultsAnswer};
ghost use Rattle.faults_tool.specs.declared.status.FaultsStatus.TheVariants as status;

/// Words and bytes ask for one answer at most.
pub fn one_answer()
    ensures { (words : List (List ℕ)) (bytes : List ℕ) (a b : FaultsAnswer) → AsksForFaults words bytes a → AsksForFaults words bytes b → a ≡ b }
{}

/// The status of the answer is `Done` exactly where each set that is requested is valid.
pub fn done_where_valid()
    ensures { (words : List (List ℕ)) (bytes : List ℕ) (answer : FaultsAnswer) → AsksForFaults words bytes answer
        → (faults_answer_status answer ≡ status.Done) ↔ AreAllValid words bytes }
{}

/// The status is by the sets that are requested. Neither the format nor the warnings change it.
pub fn status_by_request()
    ensures { (bytes : List ℕ) (a b : FaultsCommand) (x y : FaultsAnswer) → request_of_words a ≡ request_of_words b → AsksOfPackBytes bytes a x
        → AsksOfPackBytes bytes b y
        → faults_answer_status x ≡ faults_answer_status y }
{}

/// A job that `dapseq` takes has its pack.
pub fn pack_of_a_job()
    ensures { (d : Data) (job : Job) → IsJob d job → HasPack d job.pack }
{}
