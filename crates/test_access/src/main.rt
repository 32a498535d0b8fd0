//! Tries the tables of flights and of accesses that standard input names.
#![tactic(auto)]

mod access;
mod copies;
mod flights;
mod forms;
mod over;
mod plans;
mod session;
mod stops;

use access::AnyAccess;
use copies::ScriptedAccess;
use flights::AnyFlight;
use forms::{FirstForms, HeldAccesses, Parts, RequestLists};
use plans::Plans;
use std::io;
use std::io::ErrorKind;
use stops::Stops;
use test_words::try_table;

fn main(rt: HostRuntime) -> io::Result<()> {
    for line in rt.lines(rt.alloc()) {
        let line = line?;
        let name = line.as_str();
        match name {
            "requests" => try_table::<RequestLists>(&rt, name)?,
            "parts" => try_table::<Parts>(&rt, name)?,
            "held" => try_table::<HeldAccesses>(&rt, name)?,
            "forms" => try_table::<FirstForms>(&rt, name)?,
            "values" | "cuts" | "polls" | "commands" | "flight_replies" => {
                try_table::<AnyFlight>(&rt, name)?
            }
            "plans" => try_table::<Plans>(&rt, name)?,
            "packed" | "alone" | "bad_replies" | "openings" => {
                try_table::<AnyAccess>(&rt, name)?
            }
            "stops" => try_table::<Stops>(&rt, name)?,
            "copies" => try_table::<ScriptedAccess>(&rt, name)?,
            _ => return Err(io::Error::from(ErrorKind::NotFound)),
        }
    }
    Ok(())
}
