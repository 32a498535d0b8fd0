//! The last line: how many faults there are, and what was checked.
ghost use Rattle.std.specs.Prelude.{◌≡◌, ◌++◌, codes, IfOk};
ghost use Rattle.fault_lines.specs.Counted as lines;
ghost use Rattle.fault_lines.specs.Counted.{count_words, unchecked_sets, checked_words, unchecked_words};

use dap_base::OutOfMemory;
use std::alloc::Global;
use text_lines::Line;

// So many, in the singular or the plural.
fn with_counted(line: Line, number: u64, one: &str, many: &str) -> Result<Line, OutOfMemory>
    ensures { IfOk result (λ l. l ≡ line ++ count_words number one.now many.now) }
{
    let word = if number == 1 { one } else { many };
    line.decimal(number)?.text(word)
}

// So many sets of which this was not checked, if there is one.
fn with_unchecked(line: Line, what: &str, number: u64, how: &str) -> Result<Line, OutOfMemory>
    ensures { IfOk result (λ l. l ≡ line ++ unchecked_sets what.now number how.now) }
{
    if number == 0 {
        return Ok(line);
    }
    with_counted(line.text(what)?, number, " set", " sets")?.text(how)
}

fn with_checked(line: Line, faults: u64, devices: u64, sets: u64) -> Result<Line, OutOfMemory>
    ensures { IfOk result (λ l. l ≡ line ++ checked_words faults devices sets) }
{
    let line = with_counted(line, faults, " fault; ", " faults; ")?;
    let line = with_counted(line, devices, " device, ", " devices, ")?;
    with_counted(line, sets, " set checked", " sets checked")
}

fn with_unreached(line: Line, unread: u64, unreached: u64) -> Result<Line, OutOfMemory>
    ensures { IfOk result (λ l. l ≡ line ++ unchecked_words unread unreached) }
{
    let line = with_unchecked(line, "; names of ", unread, " not checked")?;
    with_unchecked(line, "; calls of ", unreached, " not all checked")
}

/// The line of counts: the faults, the devices and the sets that were checked, `unread` sets whose names were not
/// checked, and `unreached` sets whose calls were not all checked. `OutOfMemory` where memory is refused.
pub fn counts_line(
    alloc: Global,
    faults: u64,
    devices: u64,
    sets: u64,
    unread: u64,
    unreached: u64,
) -> Result<Line, OutOfMemory>
    ensures { IfOk result (λ line. line ≡ lines.counts_line faults devices sets unread unreached) }
{
    let line = with_checked(Line::begin(alloc, "")?, faults, devices, sets)?;
    with_unreached(line, unread, unreached)?.text("\n")
}

/// The same line with this many warnings. `OutOfMemory` where memory is refused.
pub fn warned_counts_line(
    alloc: Global,
    faults: u64,
    devices: u64,
    sets: u64,
    unread: u64,
    unreached: u64,
    warnings: u64,
) -> Result<Line, OutOfMemory>
    ensures { IfOk result (λ line. line ≡ lines.warned_counts_line faults devices sets unread unreached warnings) }
{
    let line = with_checked(Line::begin(alloc, "")?, faults, devices, sets)?;
    let line = with_unreached(line, unread, unreached)?.text("; ")?;
    with_counted(line, warnings, " warning\n", " warnings\n")
}
