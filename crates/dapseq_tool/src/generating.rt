//! The job of a number.
ghost use Rattle.std.specs.Prelude.{◌≡◌, ◌≤◌, ◌<◌, ◌^◌, ◌++◌, IfOk, codes};
ghost use Rattle.dapseq_tool.specs.Generated.{back_text, block_text, blocks_text, front_text, job_text, write_text};

use dap_base::OutOfMemory;
use std::alloc::Global;
use text_lines::Line;

// What stands before the blocks.
const FRONT: &str =
    "{\"pack\":{\"families\":[{\"Dfamily\":\"F\",\"devices\":[{\"Dname\":\"G\",\"debugvars\":\"__var s = 0;\",\"sequences\":[{\"name\":\"Main\",\"steps\":[";

// What stands after the blocks.
const BACK: &str =
    "{\"block\":\"Message(0, \\\"sum %u\\\", s);\"}]}]}]}]},\"bench\":{\"packet_size\":64,\"packet_count\":4,\"target\":{\"powered\":true,\"aps\":[{\"ap\":0}],\"memory\":[{\"address\":536870912,\"length\":1024}]}}}";

// With the front of a block of a number: a word is written.
fn with_write(line: Line, i: u64) -> Result<Line, OutOfMemory>
    requires { i < 65536 }
    ensures { IfOk result (λ new. new ≡ line ++ write_text i) }
{
    let line = line.text("{\"block\":\"Write32(")?;
    let line = line.decimal(536_870_912 + 4 * (i % 256))?.text(", ")?;
    line.decimal(2_654_435_761 * i % 4_294_967_296)?.text("); ")
}

// With the block of a number.
fn with_block(line: Line, i: u64) -> Result<Line, OutOfMemory>
    requires { i < 65536 }
    ensures { IfOk result (λ new. new ≡ line ++ block_text i) }
{
    let line = with_write(line, i)?.text("s = s + Read32(")?;
    line.decimal(536_870_912 + 4 * (7 * i % 256))?
        .text(");\"},")
}

// With the first so many blocks.
fn with_blocks(line: Line, count: u64) -> Result<Line, OutOfMemory>
    requires { count ≤ 65536 }
    ensures { IfOk result (λ new. new ≡ line ++ blocks_text count) }
{
    let mut line = line;
    for i in 0..count {
        line = match with_block(line, i) {
            Ok(next) => next,
            Err(refused) => return Err(refused),
        };
    }
    Ok(line)
}

/// The JSON text of the job of a number: one device `G` with a sequence `Main`. For each i from 0 to the number the sequence writes a word,
/// and reads another one and adds it to a sum. At last it writes the sum as a message.
pub fn job_of_number(alloc: Global, number: u16) -> Result<Line, OutOfMemory>
    ensures { IfOk result (λ line. line ≡ job_text number) }
{
    let line = Line::begin(alloc, FRONT)?;
    with_blocks(line, number as u64 + 1)?.text(BACK)
}
