//! What follows from the definitions: each law is the contract of a function that does nothing.
ghost use Rattle.access_regs.specs.Closed.{MemoryAtEntry, MemoryFollowsCalls};
ghost use Rattle.access_regs.specs.Costs.{AloneReads, PlannedReads, PortReads};
ghost use Rattle.access_regs.specs.Entries.{CallAnswers, JournalGrows, JournalMarks, JournalWeighs, LeadsAreGood, SelectIsGood, UnitsInRange};
ghost use Rattle.access_regs.specs.Laws.{AloneKept, CallGoes, CallLeaves, FreshFollows, JournalAgrees, JournalAnswers, JournalFollows, JournalJoins};
ghost use Rattle.access_regs.specs.Laws.{JournalPasses, JournalStops, KeptAfterCfg, KeptByCfg, KeptBySelect, KeptJoins, LaterEntries, PlainIsAlone};
ghost use Rattle.access_regs.specs.Laws.{PortKept, SettlingEnds, UnitKeepsMemory};
ghost use Rattle.access_regs.specs.Light.{JournalIsLight};
ghost use Rattle.access_regs.specs.Skips.{FaultSkips, PassingIsMade};
ghost use Rattle.access_regs.specs.Stops.{FaultStops, PassingStops, WaitStops};
ghost use Rattle.access_regs.specs.Neighbours.{NeighboursAreBare, NeighboursAreFew};

/// One call goes as it goes alone, and the next may follow it; the first may follow a fresh target.
#[tactic(auto, using(crate::proofs::AllCalls::call_goes))]
pub fn calls_go_as_alone()
    ensures begin { FreshFollows }
    ensures goes { CallGoes }
    ensures leaves { CallLeaves }
{}

/// Units that are planned, and then settled, leave what they leave when each is made alone.
#[tactic(auto, using(crate::proofs::AllCalls::journal_follows, crate::proofs::AllCalls::journal_agrees, crate::proofs::AllCalls::journal_passes, crate::proofs::AllCalls::journal_stops, crate::proofs::AllCalls::journal_answers))]
pub fn journals_follow_calls()
    ensures follows { JournalFollows }
    ensures agrees { JournalAgrees }
    ensures passes { JournalPasses }
    ensures stops { JournalStops }
    ensures answers { JournalAnswers }
{}

/// Neighbouring memory units issue little more than one access each.
#[tactic(auto, using(crate::proofs::FewWide::neighbours_few))]
pub fn neighbours_are_few()
    ensures few { NeighboursAreFew }
    ensures bare { NeighboursAreBare }
{}

/// The journal of more calls begins with that of the first ones, and goes on from where these end.
#[tactic(auto, using(crate::proofs::Joins::journal_joins, crate::proofs::Joins::later_entries, crate::proofs::Joins::kept_joins))]
pub fn journals_join()
    ensures entries { JournalJoins }
    ensures later { LaterEntries }
    ensures kept { KeptJoins }
{}

/// After a settling no access port is unsettled.
#[tactic(auto, using(crate::proofs::Joins::settling_ends))]
pub fn settling_ends()
    ensures { SettlingEnds }
{}

/// Where calls stop, by the entries that they issue.
#[tactic(auto, using(crate::proofs::StopLists::fault_stops, crate::proofs::StopLists::wait_stops, crate::proofs::StopLists::passing_stops))]
pub fn entries_stop()
    ensures fault { FaultStops }
    ensures wait { WaitStops }
    ensures passing { PassingStops }
{}

/// What one more call, and a mark of the last one, add to the journal; and what is true of each entry.
#[tactic(auto, using(crate::proofs::EntryLemmas::call_answers, crate::proofs::WeightyLemmas::journal_weighs))]
pub fn entries_of_calls()
    ensures grows { JournalGrows }
    ensures marks { JournalMarks }
    ensures answers { CallAnswers }
    ensures units { UnitsInRange }
    ensures weighs { JournalWeighs }
{}

/// Of what comes before the access that a forgiving unit is for only the reads of CFG and CSW can fault.
#[tactic(auto, using(crate::proofs::LeadLemmas::select_is_good))]
pub fn leads_of_forgiving_units()
    ensures select { SelectIsGood }
    ensures leads { LeadsAreGood }
{}

/// Of the accesses of a unit that forgives nothing, settling with them, only the one that the unit is for changes the
/// memory.
pub fn only_the_last_access_changes_memory()
    ensures { UnitKeepsMemory }
{}

/// After any first part of the journal the memory is that of the calls up to the last one whose own access or skip is in it. Before
/// an entry, and after it, it is that of the units that have their lines before it, and of the next one where its own access came.
pub fn memory_follows_calls()
    ensures calls { MemoryFollowsCalls }
    ensures entry { MemoryAtEntry }
{}

/// A call that forgives a fault is skipped exactly where one of its accesses faults.
#[tactic(auto, using(crate::proofs::SkipLemmas::fault_skips, crate::proofs::SkipLemmas::passing_is_made))]
pub fn faults_skip_calls()
    ensures fault { FaultSkips }
    ensures passing { PassingIsMade }
{}

/// The entries of calls weigh together no more than so much for each call.
#[tactic(auto, using(crate::proofs::LightLemmas::journal_light))]
pub fn calls_are_light()
    ensures { JournalIsLight }
{}

/// How many reads of CSW and CFG lead to the access that a unit is for.
#[tactic(auto, using(crate::proofs::CostLemmas::planned_reads, crate::proofs::CostLemmas::alone_reads, crate::proofs::CostLemmas::port_reads))]
pub fn reads_that_lead()
    ensures planned { PlannedReads }
    ensures alone { AloneReads }
    ensures port { PortReads }
{}

/// What is known after a unit that is made alone, whether it faults or not.
#[tactic(auto, using(crate::proofs::KeptLemmas::alone_kept, crate::proofs::KeptLemmas::port_kept, crate::proofs::KeptLemmas::kept_by_select))]
pub fn units_alone_are_known()
    ensures memory { AloneKept }
    ensures port { PortKept }
    ensures select { KeptBySelect }
    ensures cfg { KeptByCfg }
    ensures after { KeptAfterCfg }
{}

/// By the plain planner calls issue what they issue when each is made alone.
#[tactic(auto, using(crate::proofs::PlainLemmas::plain_is_alone))]
pub fn plain_calls_go_alone()
    ensures { PlainIsAlone }
{}
