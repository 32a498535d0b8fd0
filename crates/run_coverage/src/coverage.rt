//! What a run has covered so far.
ghost use Rattle.std.specs.Prelude.{◌≡◌, ◌||◌, [], ℕ, List, true, OnOk};
ghost use Rattle.std.specs.List.{AllPass, list_any};
ghost use Rattle.std.specs.Str.{bytes_eq};
ghost use Rattle.expr_grammar.specs.Tree.{stmt_tree};
ghost use Rattle.sequence_trees.specs.declared.spot.Part.TheVariants as part;
ghost use Rattle.run_events.specs.Events as e;
ghost use Rattle.run_events.specs.OfSteps.{statement_place};
ghost use Rattle.log_lines.specs.Places.{condition_spot, spot_in_step};
ghost use Rattle.run_coverage.specs.Items.{branch_words, ran_words};
ghost use Rattle.run_coverage.specs.Ran.{is_had};

use crate::items::place_of;
use crate::ran::{RanStatement, empty_slots, slot_of};
use crate::words::{if_words, statement_words, while_words};
use dap_base::{OutOfMemory, Place};
use expr_grammar::Stmt;
use indexmap::IndexSet;
use std::alloc::Global;
use text_lines::Line;

// What happens at an `if` of this value.
fn word_of_choice(value: u64) -> &'static str
    ensures { result.now ≡ branch_words value }
{
    if value == 0 { "skipped " } else { "taken " }
}

/// What a run has covered so far: what happened at its places. Each call notes one event, in a time that does not grow with the set,
/// and answers `OutOfMemory` where memory is refused. Contracts see the words of what happened (`has`), and the events that have it (`IsOf`).
#[derive(Drop)]
pub struct Coverage {
    pub(crate) alloc: Global,
    pub(crate) words: IndexSet<Vec<u8>>,
    // Statements that ran lately, each in its slot: of one that runs again no words are made.
    pub(crate) recent: Vec<Option<RanStatement>>,
    ghost had: { AllPass (is_had (λ own. list_any (λ k. bytes_eq own k.items) words.keys)) recent.items },
}

impl Coverage {
    ghost use Rattle.run_coverage.specs.Covered.{Covers, IsOf, has};

    /// The coverage of no events. Nothing is allocated.
    pub fn new(alloc: Global) -> Coverage
        ensures { IsOf result [] }
    {
        Coverage {
            alloc,
            words: IndexSet::new(alloc),
            recent: Vec::new(alloc),
        }
    }

    /// Whether this happened.
    pub(crate) fn has(&self, words: &[u8]) -> bool
        ensures { result ≡ has self.now words.now }
    {
        self.words.contains(words)
    }

    // Keeps words that are new.
    fn keep(&mut self, words: &[u8]) -> Result<(), OutOfMemory>
        ensures { OnOk result ((other : List ℕ) → has self.new other ≡ (has self.old other || bytes_eq other words.now)) }
    {
        let Ok(key) = Vec::from_slice(self.alloc, words) else {
            return Err(OutOfMemory);
        };
        match self.words.insert(key) {
            Ok(_) => Ok(()),
            Err(_) => Err(OutOfMemory),
        }
    }

    // Notes what happened.
    fn note(&mut self, words: &Line) -> Result<(), OutOfMemory>
        ensures { OnOk result ((other : List ℕ) → has self.new other ≡ (has self.old other || bytes_eq other words.now)) }
    {
        if self.has(words.as_bytes()) {
            return Ok(());
        }
        self.keep(words.as_bytes())
    }

    // Whether it is remembered that this statement ran.
    fn is_recent(&self, sequence: &str, path: &[u64], place: Place) -> bool
        ensures { result ≡ true → has self.now (ran_words (spot_in_step sequence.now path.now part.Block place)) ≡ true }
    {
        match self.recent.get(slot_of(sequence, path, place)) {
            Some(Some(ran)) => ran.is_at(sequence, path, place),
            _ => false,
        }
    }

    // Remembers a statement in its slot, in place of another.
    #[tactic(auto, using(crate::proofs::RanLemmas::one_had))]
    fn remember(&mut self, sequence: &str, path: &[u64], place: Place) -> Result<(), OutOfMemory>
        requires { has self.old (ran_words (spot_in_step sequence.now path.now part.Block place)) ≡ true }
        ensures { (other : List ℕ) → has self.new other ≡ has self.old other }
    {
        let slot = slot_of(sequence, path, place);
        let ran = RanStatement::new(self.alloc, sequence, path, place)?;
        if self.recent.is_empty() {
            self.recent = empty_slots(self.alloc)?;
        }
        if slot < self.recent.len() {
            self.recent[slot] = Some(ran);
        }
        Ok(())
    }

    /// A statement of a block begins.
    pub fn begin(
        &mut self,
        sequence: &str,
        path: &[u64],
        statement: &Stmt,
    ) -> Result<(), OutOfMemory>
        ensures { Covers self.old self.new result
            (e.Begins (spot_in_step sequence.now path.now part.Block (statement_place (stmt_tree statement.now))) (stmt_tree statement.now)) }
    {
        let place = place_of(statement);
        if self.is_recent(sequence, path, place) {
            return Ok(());
        }
        let words = statement_words(self.alloc, sequence, path, place)?;
        self.note(&words)?;
        self.remember(sequence, path, place)
    }

    /// The `if` of a control has this value: the control is skipped where it is 0.
    pub fn choose(&mut self, sequence: &str, path: &[u64], value: u64) -> Result<(), OutOfMemory>
        ensures { Covers self.old self.new result (e.Chooses (condition_spot sequence.now path.now part.If) value) }
    {
        let words = if_words(self.alloc, word_of_choice(value), sequence, path)?;
        self.note(&words)
    }

    /// A `while` is left, since its value was 0 in the turn of some number.
    pub fn leave_loop(&mut self, sequence: &str, path: &[u64]) -> Result<(), OutOfMemory>
        ensures { (turns : ℕ) → Covers self.old self.new result (e.Leaves (condition_spot sequence.now path.now part.While) turns) }
    {
        let words = while_words(self.alloc, "left ", sequence, path)?;
        self.note(&words)
    }

    /// A `while` that is a poll found its value.
    pub fn end_poll(&mut self, sequence: &str, path: &[u64]) -> Result<(), OutOfMemory>
        ensures { Covers self.old self.new result (e.Matches (condition_spot sequence.now path.now part.While)) }
    {
        let words = while_words(self.alloc, "left ", sequence, path)?;
        self.note(&words)
    }

    /// A `while` has made all turns that its timeout allows.
    pub fn time_out(&mut self, sequence: &str, path: &[u64]) -> Result<(), OutOfMemory>
        ensures { (turns : ℕ) → Covers self.old self.new result (e.TimesOut (condition_spot sequence.now path.now part.While) turns) }
    {
        let words = while_words(self.alloc, "timed out ", sequence, path)?;
        self.note(&words)
    }
}
