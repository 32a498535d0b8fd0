//! Laws of calls, as the contracts of functions that do nothing.
ghost use Rattle.std.specs.Prelude.{◌≡◌, ⊤, ℕ, List, ◌++◌, Option, codes, length, true};
ghost use Rattle.std.specs.List.{flat_map};
ghost use Rattle.probe_core.specs.Bench.{BenchState};
ghost use Rattle.probe_core.specs.Log.{Entry, Log};
ghost use Rattle.probe_core.specs.Probe.{target_of};
ghost use Rattle.trace_audit.specs.Texts.{IsEntryText};
ghost use Rattle.report_lines.specs.Audit.{audit_ok_line};
ghost use Rattle.report_lines.specs.Report.{target_part};
ghost use Rattle.report_lines.specs.Trace.{kept_line, trace};
ghost use Rattle.job_text.specs.Answers.{Describes};
ghost use Rattle.job_text.specs.declared.job.Job.{Job};
ghost use Rattle.dapseq_tool.specs.Answers.{answer_text};
ghost use Rattle.dapseq_tool.specs.Audit.{AsksOfAudit};
ghost use Rattle.dapseq_tool.specs.Asked.{AsksForRequest, IsSameWhat};
ghost use Rattle.dapseq_tool.specs.declared.asking.Requested.{Requested};
ghost use Rattle.dapseq_tool.specs.Headline.{After, BenchCall, DoesWithBench, IsRunTo, RunEnd};
ghost use Rattle.dapseq_tool.specs.Kept.{HasKept, entry_text, kept_audit, kept_texts};
ghost use Rattle.dapseq_tool.specs.declared.asking.Answer.TheVariants as Answer;
ghost use Rattle.dapseq_tool.specs.declared.asking.Run.{Run};
ghost use Rattle.dapseq_tool.specs.declared.asking.What.TheVariants as What;
ghost use Rattle.dapseq_tool.specs.declared.status.Status.TheVariants as Status;
ghost use Rattle.dapseq_tool.specs.Success.{HasCauses, HasGotBadReply, Success};
ghost use Rattle.dapseq_tool.specs.TwoRuns.{IsSameTask, LeavesSame};
ghost use Rattle.job_runs.specs.Runs.{AccessKind};
ghost use Rattle.dapseq_tool.specs.FollowedRuns.{RunsLay, RunsList};
ghost use Rattle.control_flow.specs.Closing.{ComesToEnd};

/// A call that nothing outside disturbed did what was asked for.
pub fn quiet_calls_succeed()
    ensures { (access : AccessKind) (call : BenchCall) → DoesWithBench access call ⊤ → HasCauses call → Success access call }
{}

/// A call that ends with a bad reply received one, and its bench is not observable.
pub fn bad_replies_are_received()
    ensures { (access : AccessKind) (call : BenchCall) → DoesWithBench access call ⊤ → call.end ≡ Status.ReplyBad → HasGotBadReply call }
{}

/// The words and the bytes of the source ask for one thing at most.
pub fn one_thing()
    ensures { (words : List (List ℕ)) (bytes : List ℕ) (x y : Requested) → AsksForRequest words bytes x → AsksForRequest words bytes y → IsSameWhat x.what y.what }
{}

/// The words and the bytes of the source ask for something, whichever they are.
pub fn something_is_asked()
    ensures { (words : List (List ℕ)) (bytes : List ℕ) → (asked : Requested) × AsksForRequest words bytes asked }
{}

/// The line that is printed of a packet or of a reply is the text of no other entry under the key `trace`.
pub fn a_printed_entry_is_read()
    ensures { (printed read : Entry) → IsEntryText (entry_text printed) read → read ≡ printed }
{}

/// Put what the mode `trace` prints of a run whose log was kept whole under the key `trace` of a job with its bench and its watched words.
/// An audit accepts it, with the target that the run reports.
pub fn a_kept_trace_is_accepted()
    // The trace is the lines that are put under the key, and the line of their numbers.
    ensures printed { (log : Log) → trace log ≡ flat_map (λ text. text ++ codes "\n") (kept_texts log) ++ kept_line (length log.kept) log.count }
    // The audit of the job accepts them; they lead to the probe as the run left it.
    ensures accepted { (access : AccessKind) (run : Run) (before : Option (List ℕ)) (r : RunEnd) (a : After) (n : BenchState) (job : Job) (bytes : List ℕ)
        → IsRunTo access run before r a n → n.log.whole ≡ true → HasKept run n.log job → Describes bytes job
        → AsksOfAudit bytes (What.Answer (Answer.Audited (kept_audit job n))) }
    // The target is written as in the report of the run.
    ensures target { (run : Run) (n : BenchState) (job : Job) → HasKept run n.log job
        → answer_text (Answer.Audited (kept_audit job n)) ≡ audit_ok_line (kept_audit job n).audited ++ target_part true run.valid.job (target_of n.probe) }
{}

/// Let two runs of one sequence be done or halted, by the same trees and settings on the same target. They leave the same variables, units,
/// lines, memory, and registers except RDBUFF. So it is whatever the packet limits and the stalls of their benches are, and whichever
/// access each has.
pub fn packet_limits_do_not_matter()
    ensures { (access other : AccessKind) (x y : Run) (before : Option (List ℕ)) (p q : RunEnd) (a b : After) (m n : BenchState)
        → IsSameTask x y → IsRunTo access x before p a m → IsRunTo other y before q b n → ComesToEnd p.ended.ending → ComesToEnd q.ended.ending
        → LeavesSame before p q m n }
{}

/// Let a run of the mode `load` be done, the sequence by itself be done, and the image be one that may be loaded after it. Then the run
/// lays the image over the memory that the sequence leaves, and no byte differs.
pub fn runs_lay_images()
    ensures { RunsLay }
{}

/// Let a run of the mode `scan` be done, the sequence by itself be done, and words be readable by the access port after it. Then the run
/// lists the components that the words of the target show. It lists the first 1,024 where there are more, and is full exactly there.
pub fn runs_list_components()
    ensures { RunsList }
{}
