//! Runs each worked job that standard input names, and compares what is written with the stored text. Those after the word `failing` run
//! once for each call of an object, which fails. Those after the word `single` run by the access that sends each register access by itself,
//! and those after the word `silent` over a bench that is not observable. After the word `audit` it runs the audit of the trace that is
//! stored.
#![tactic(auto)]

mod answering;
mod auditing;
mod failing;
mod stored;

use std::io;
use stored::{run_audit, run_case, run_failing, run_silent, run_single};

fn main(rt: HostRuntime) -> io::Result<()> {
    for line in rt.lines(rt.alloc()) {
        let line = line?;
        let line = line.as_str();
        if let Some(name) = line.strip_prefix("failing ") {
            run_failing(&rt, name)?;
        } else if let Some(name) = line.strip_prefix("single ") {
            run_single(&rt, name)?;
        } else if let Some(name) = line.strip_prefix("silent ") {
            run_silent(&rt, name)?;
        } else if let Some(name) = line.strip_prefix("audit ") {
            run_audit(&rt, name)?;
        } else {
            run_case(&rt, line)?;
        }
    }
    Ok(())
}
