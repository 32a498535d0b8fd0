//! Laws of logs: each is the contract of a function that does nothing.
ghost use Rattle.log_lines.specs.Laws.{CutsTakeBack, LinesAreTheText};
ghost use Rattle.log_lines.specs.Rows.{Sample};

/// A log that is cut at a mark is the log as it was there.
pub fn cuts_take_back()
    ensures { CutsTakeBack }
{}

/// The text of a log after events is its text before them, with the text of each event after it.
pub fn lines_are_the_text()
    ensures { LinesAreTheText }
{}

/// The definitions compute: the text of events, worked out by hand.
pub fn worked_rows()
    ensures { Sample }
{}
