//! The line that a place of a set stands in.
ghost use Rattle.std.specs.Prelude.{◌≡◌, ◌==◌, ◌-◌, true, None, Some, map, option_map, MatchOption};
ghost use Rattle.std.specs.List.{before_first, after_first, IsDistinct};
ghost use Rattle.std.specs.Option.{option_copied};
ghost use Rattle.std.specs.Str.{bytes_eq};
ghost use Rattle.sequence_resolve.specs.declared.entry.SeqSet.{SeqSet};
ghost use Rattle.set_lines.specs.Lines.{part_text, text_along, line_of};
ghost use Rattle.set_lines.specs.Rests.{rest_after, rest_of, follows, from_named, AreLast, IsStart, AreLines};

use crate::parts::part_number;
use crate::texts::{name_of, same_text};
use dap_base::NameText;
use device_tree::{Step, Steps};
use sequence_resolve::{SeqEntry, SeqSet};
use sequence_trees::{Part, Spot};

// The text up to the first line feed.
fn first_line(text: &str) -> &str
    ensures { result.now ≡ before_first (λ b. b == 10) text.now }
{
    match text.split_once('\n') {
        Some((line, _)) => line,
        None => text,
    }
}

// The text after the first line feed; an empty one where there is none.
fn other_lines(text: &str) -> &str
    ensures { result.now ≡ after_first (λ b. b == 10) text.now }
{
    match text.split_once('\n') {
        Some((_, rest)) => rest,
        None => "",
    }
}

// The text after this many line feeds; an empty one where it has fewer.
#[tactic(auto, using(crate::proofs::LineLemmas::next_rest, crate::proofs::LineLemmas::last_rest))]
fn rest_after(text: &str, line_feeds: u64) -> &str
    ensures { result.now ≡ rest_after line_feeds text.now }
{
    let mut rest = text;
    let mut left = line_feeds;
    while left > 0 {
        rest = other_lines(rest);
        left -= 1;
    }
    rest
}

// The text of this part of a step.
fn part_text(part: Part, step: &Step) -> Option<&NameText>
    ensures { option_copied result ≡ part_text part step.now }
{
    match (part, step) {
        (Part::Block, Step::Block { code, .. }) => Some(code),
        (Part::If, Step::Control { cond, .. }) => cond.as_ref(),
        (Part::While, Step::Control { repeat, .. }) => repeat.as_ref(),
        _ => None,
    }
}

// The text of this part of the step at the path.
fn text_along<'a>(part: Part, path: &[u64], steps: &'a Steps) -> Option<&'a NameText>
    ensures { option_copied result ≡ text_along part path.now steps.now }
{
    match path {
        [] => None,
        [last] => part_text(part, steps.get(*last as usize)?),
        [first, inner @ ..] => match steps.get(*first as usize)? {
            Step::Block { .. } => None,
            Step::Control { steps, .. } => text_along(part, inner, steps),
        },
    }
}

// The sequences from the first of this name on.
fn from_named<'a>(sequences: &'a [SeqEntry], name: &str) -> Option<&'a [SeqEntry]>
    ensures { option_map (λ w. w.now) result ≡ from_named name.now sequences.now }
{
    let mut rest = sequences;
    while let [first, others @ ..] = rest {
        if name == first.name.as_str() {
            return Some(rest);
        }
        rest = others;
    }
    None
}

// The sequences of the set from the one of this name on, which is sought among the last ones first.
fn sequences_from<'a>(set: &'a SeqSet, last: &'a [SeqEntry], name: &str) -> Option<&'a [SeqEntry]>
    requires distinct { IsDistinct bytes_eq (map (λ e. e.name) set.now.entries) }
    requires last { AreLast set.now last.now }
    ensures { option_map (λ w. w.now) result ≡ from_named name.now set.now.entries }
{
    match from_named(last, name) {
        Some(found) => Some(found),
        None => from_named(set.entries.as_slice(), name),
    }
}

// How many line feeds of its text come before the place.
fn feeds_before(spot: &Spot) -> u64
    ensures { result ≡ spot.now.place.line - 1 }
{
    spot.place.line.saturating_sub(1)
}

fn same_path(path: &[u64], other: &[u64]) -> bool
    ensures { result ≡ bytes_eq path.now other.now }
{
    path == other
}

// Whether a place is in the text of the last one, in its line or a later one.
fn is_not_before(last: &Spot, spot: &Spot) -> bool
    ensures { result ≡ follows last.now spot.now }
{
    same_text(name_of(&last.sequence), name_of(&spot.sequence))
        && same_path(last.path.as_slice(), spot.path.as_slice())
        && part_number(last.part) == part_number(spot.part)
        && last.place.line <= spot.place.line
}

// Where the line of a place begins.
#[derive(Clone, Copy)]
struct LineStart<'a> {
    spot: &'a Spot,
    // The text from the line on.
    rest: &'a str,
    // The sequences from the one of the place on.
    sequences: &'a [SeqEntry],
}

// Where the line of a place in the sequence of this name begins. The sequence is sought among the last ones first.
fn start_in<'a>(
    set: &'a SeqSet,
    last: &'a [SeqEntry],
    name: &str,
    spot: &'a Spot,
) -> Option<LineStart<'a>>
    requires distinct { IsDistinct bytes_eq (map (λ e. e.name) set.now.entries) }
    requires last { AreLast set.now last.now }
    requires named { spot.now.sequence ≡ Some name.now }
    ensures { MatchOption result (rest_of set.now spot.now ≡ None) (IsStart set.now spot.now) }
{
    let sequences = sequences_from(set, last, name)?;
    let steps = sequences.first()?.steps.as_steps();
    let text = text_along(spot.part, spot.path.as_slice(), steps)?;
    let rest = rest_after(text.as_str(), feeds_before(spot));
    Some(LineStart {
        spot,
        rest,
        sequences,
    })
}

// Where the line of a place begins.
fn start_of<'a>(set: &'a SeqSet, last: &'a [SeqEntry], spot: &'a Spot) -> Option<LineStart<'a>>
    requires distinct { IsDistinct bytes_eq (map (λ e. e.name) set.now.entries) }
    requires last { AreLast set.now last.now }
    ensures { MatchOption result (rest_of set.now spot.now ≡ None) (IsStart set.now spot.now) }
{
    match &spot.sequence {
        None => Some(LineStart {
            spot,
            rest: rest_after(set.debugvars.as_str(), feeds_before(spot)),
            sequences: last,
        }),
        Some(name) => start_in(set, last, name.as_str(), spot),
    }
}

// Where the line of a place begins that follows the last one.
fn start_after<'a>(last: LineStart<'a>, spot: &'a Spot) -> LineStart<'a>
    requires { follows last.spot.now spot.now ≡ true }
    ensures { (set : SeqSet) → IsStart set last.entry.spot.now last.entry → IsStart set spot.now result }
{
    let passed = feeds_before(spot) - feeds_before(last.spot);
    LineStart {
        spot,
        rest: rest_after(last.rest, passed),
        sequences: last.sequences,
    }
}

/// The lines of places of a set. The line of a place that follows the last one in its text is sought from there on, and its sequence from
/// the last one on.
#[derive(Drop)]
pub struct Lines<'a> {
    set: &'a SeqSet,
    last: Option<LineStart<'a>>,
}

impl<'a> Lines<'a> {
    /// Those of this set, of which none was sought. The names of the set must be distinct, as those of
    /// `sequence_resolve::set_along` are.
    pub fn new(set: &'a SeqSet) -> Lines<'a>
        requires { IsDistinct bytes_eq (map (λ e. e.name) set.now.entries) }
        ensures set { result.set.now ≡ set.now }
        ensures fine { AreLines result }
    {
        Lines { set, last: None }
    }

    // Where the line of a place begins.
    fn start_at(&self, spot: &'a Spot) -> Option<LineStart<'a>>
        requires { AreLines self.now }
        ensures { MatchOption result (rest_of self.now.set.now spot.now ≡ None) (IsStart self.now.set.now spot.now) }
    {
        match self.last {
            Some(last) if is_not_before(last.spot, spot) => Some(start_after(last, spot)),
            Some(last) => start_of(self.set, last.sequences, spot),
            None => start_of(self.set, self.set.entries.as_slice(), spot),
        }
    }

    /// The line of the place, lent without a copy. `None` where the part is no text.
    pub fn line_of(&mut self, spot: &'a Spot) -> Option<&'a str>
        requires { AreLines self.old }
        ensures line { option_map (λ w. w.now) result ≡ line_of self.old.set.now spot.now }
        ensures set { self.new.set.now ≡ self.old.set.now }
        ensures fine { AreLines self.new }
    {
        let start = self.start_at(spot)?;
        self.last = Some(start);
        Some(first_line(start.rest))
    }
}
