//! Tries the tables of the target, messages, transfers, the probe and the benches that standard input names.
#![tactic(auto)]

mod benches;
mod commands;
mod exchanges;
mod packets;
mod replies;
mod requests;
mod target;
mod transfers;

use benches::AnyBench;
use commands::WrittenCommands;
use exchanges::FreshProbe;
use packets::PacketViews;
use replies::{ReplyViews, Responses, WrittenReplies};
use requests::NamedRequests;
use std::io;
use std::io::ErrorKind;
use target::OneTarget;
use test_words::try_table;
use transfers::{Blocks, Transfers};

fn main(rt: HostRuntime) -> io::Result<()> {
    for line in rt.lines(rt.alloc()) {
        let line = line?;
        let name = line.as_str();
        match name {
            "debug_port" | "access_ports" | "memory" | "lines" => {
                try_table::<OneTarget>(&rt, name)?
            }
            "commands" => try_table::<WrittenCommands>(&rt, name)?,
            "requests" => try_table::<NamedRequests>(&rt, name)?,
            "packets" => try_table::<PacketViews>(&rt, name)?,
            "written_replies" => try_table::<WrittenReplies>(&rt, name)?,
            "responses" => try_table::<Responses>(&rt, name)?,
            "replies" => try_table::<ReplyViews>(&rt, name)?,
            "transfers" => try_table::<Transfers>(&rt, name)?,
            "blocks" => try_table::<Blocks>(&rt, name)?,
            "exchanges" => try_table::<FreshProbe>(&rt, name)?,
            "benches" => try_table::<AnyBench>(&rt, name)?,
            _ => return Err(io::Error::from(ErrorKind::NotFound)),
        }
    }
    Ok(())
}
