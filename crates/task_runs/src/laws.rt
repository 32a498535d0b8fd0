//! Laws of runs with a load or a scan after them: each is the contract of a function that does nothing.
ghost use Rattle.task_runs.specs.Laws.{LoadsAreLaid, ScansAreListed};

/// Where the sequence is done and the image may be loaded then, a load after it lays the image over the memory that the sequence leaves. No byte differs.
pub fn loads_are_laid()
    ensures { LoadsAreLaid }
{}

/// Let the sequence be done, and words be readable by the access port then. A scan after it lists the components that the words of the
/// target show, the first 1,024 where there are more, and is full exactly there. The words stay.
pub fn scans_are_listed()
    ensures { ScansAreListed }
{}
