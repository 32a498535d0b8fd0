//! The audit of a stored trace: its job, and the text that is expected.

use std::alloc::{AllocError, Global};

fn is_packet(line: &str) -> bool {
    line.starts_with("> ")
}

fn is_reply(line: &str) -> bool {
    line.starts_with("< ")
}

/// The job with the packets and replies of a text under the key `trace`. `None` where the job does not end with a brace.
pub fn with_trace(alloc: Global, job: &str, text: &str) -> Result<Option<String>, AllocError> {
    let Some(front) = job.trim_end().strip_suffix('}') else {
        return Ok(None);
    };
    let mut made = String::from_str(alloc, front)?;
    made.push_str(",\"trace\":[")?;
    let mut is_first = true;
    for line in text.lines() {
        if is_packet(line) || is_reply(line) {
            if !is_first {
                made.push_str(",")?;
            }
            is_first = false;
            made.push_str("\"")?;
            made.push_str(line)?;
            made.push_str("\"")?;
        }
    }
    made.push_str("]}")?;
    Ok(Some(made))
}

// How many lines of the text are packets, and how many are replies.
fn numbers_of(text: &str) -> (usize, usize) {
    let packets = text.lines().filter(|line| is_packet(line)).count();
    let replies = text.lines().filter(|line| is_reply(line)).count();
    (packets, replies)
}

/// What is expected of the audit of the trace of a text, if it is accepted: the numbers of its packets and replies, and the
/// lines of its target.
pub fn accepted_text(alloc: Global, text: &str) -> Result<String, AllocError> {
    let (packets, replies) = numbers_of(text);
    let mut expected = format!(in alloc; "audit ok packets {packets} replies {replies}\n")?;
    let mut is_target = false;
    for line in text.lines() {
        is_target = (is_target || line.starts_with("dp ")) && !is_packet(line);
        if is_target {
            expected.push_str(line)?;
            expected.push_str("\n")?;
        }
    }
    Ok(expected)
}
