//! The parts of steps, as numbers.
ghost use Rattle.std.specs.Prelude.{◌≡◌};
ghost use Rattle.sequence_trees.specs.Parts.{part_rank};

use sequence_trees::Part;

/// A number for each part.
pub fn part_number(part: Part) -> u8
    ensures { result ≡ part_rank part }
{
    part as u8
}
