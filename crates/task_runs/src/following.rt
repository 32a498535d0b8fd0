//! What follows a run that is done, over an access.
ghost use Rattle.std.specs.Prelude.{◌≡◌, ◌+◌, ◌≤◌, Some, IfOk, length};
ghost use Rattle.target_calls.specs.World.{world_after};
ghost use Rattle.access_calls.specs.Asking.{MayAsk};
ghost use Rattle.access_calls.specs.Keeps.{KeepsAccess};
ghost use Rattle.function_calls.specs.Frame.{IsReadyToCall};
ghost use Rattle.image_load.specs.LoadSequel.{load_sequel};
ghost use Rattle.rom_scan.specs.Frame.{GivesAsking, GivesWriting};
ghost use Rattle.sequels.specs.Sequel.{Sequel, comes};
ghost use Rattle.task_runs.specs.Following.{ClosingEndIs, ClosingHasNoWriteFault, EndsFollowing, FollowsAs};
ghost use Rattle.task_runs.specs.Tasks.{ClosesAs, ClosesLoad, ClosesScan, scanning, sequel_of};

use crate::followed::Followed;
use access_calls::{Access, Stop};
use dap_base::Sink;
use hex_image::Image;
use image_load::{LoadEnd, count_writes, load};
use rom_scan::{ScanEnd, scan_counting};
use sequels::Close;
use sequence_rules::MOST_UNITS;
use std::alloc::Global;

// How what follows came to its end, and how many units it asked.
#[derive(Clone, Copy)]
pub(crate) struct Closed {
    pub(crate) close: Close,
    pub(crate) units: u32,
}

// Why what follows did not come to its end.
#[derive(Clone, Copy)]
pub(crate) enum Unclosed {
    // The sink failed.
    WriteFault,
    // The access stopped, or memory was refused.
    Stopped(Stop),
}

// Loads an image, and counts its units: a write and a read for each piece. Where a byte differs the pieces are counted anew.
fn load_after<A: Access>(
    alloc: Global,
    ap: u8,
    image: &Image,
    access: &mut A,
) -> Result<Closed, Unclosed>
    requires may { MayAsk 1000000 (A.reported access.old) }
    ensures gives { GivesAsking A.begun A.reported access.old access.new
        (λ w lines. FollowsAs lines (comes (world_after w (A.reported access.old).asks.calls) (load_sequel ap image.now)) result) }
    ensures asked { IfOk result (λ x. length (A.reported access.new).asks.calls ≡ length (A.reported access.old).asks.calls + x.units) }
    ensures few { IfOk result (λ x. x.units ≤ 8000000) }
    ensures closes { IfOk result (λ x. ClosesLoad image.now x.close) }
    ensures end { ClosingEndIs result (A.reported access.new).end }
    ensures cause { ClosingHasNoWriteFault result }
    ensures keeps { KeepsAccess A.begun A.reported A.identity access.old access.new }
{
    match load(alloc, image, ap, access) {
        Ok(loaded) => Ok(Closed {
            close: Close::Loaded {
                bytes: loaded.bytes,
                writes: loaded.writes,
            },
            units: loaded.writes + loaded.writes,
        }),
        Err(
            LoadEnd::Differs {
                address,
                wanted,
                found,
            },
        ) => match count_writes(alloc, image) {
            Ok(writes) => Ok(Closed {
                close: Close::Differs {
                    address,
                    wanted,
                    found,
                },
                units: writes + writes,
            }),
            Err(_) => Err(Unclosed::Stopped(Stop::OutOfMemory)),
        },
        Err(LoadEnd::Stop(stop)) => Err(Unclosed::Stopped(stop)),
    }
}

// Lists the components of an access port, and counts the units.
fn scan_after<A: Access, K: Sink>(
    alloc: Global,
    ap: u8,
    access: &mut A,
    sink: &mut K,
) -> Result<Closed, Unclosed>
    requires may { MayAsk 1000000 (A.reported access.old) }
    ensures gives { GivesWriting A.begun A.reported K.written access.old access.new sink.old sink.new
        (λ w lines. FollowsAs lines (comes (world_after w (A.reported access.old).asks.calls) (scanning ap)) result) }
    ensures asked { IfOk result (λ x. length (A.reported access.new).asks.calls ≡ length (A.reported access.old).asks.calls + x.units) }
    ensures few { IfOk result (λ x. x.units ≤ 8000000) }
    ensures closes { IfOk result (λ x. ClosesScan x.close) }
    ensures ends { EndsFollowing A.begun A.reported A.identity K.written K.faults result access.old access.new sink.old sink.new }
{
    let mut units = 0;
    match scan_counting(alloc, ap, access, sink, &mut units) {
        Ok(asked) => Ok(Closed {
            close: Close::Scanned,
            units: asked,
        }),
        Err(ScanEnd::Full) => Ok(Closed {
            close: Close::Full,
            units,
        }),
        Err(ScanEnd::WriteFault) => Err(Unclosed::WriteFault),
        Err(ScanEnd::Stop(stop)) => Err(Unclosed::Stopped(stop)),
    }
}

// What follows a run of so many units: at most 1,000,000, else it is refused as memory is.
pub(crate) fn follow<A: Access, K: Sink>(
    alloc: Global,
    followed: &Followed,
    units: u32,
    access: &mut A,
    sink: &mut K,
) -> Result<Closed, Unclosed>
    requires ready { IsReadyToCall units (A.reported access.old) }
    ensures gives { (s : Sequel Close) → sequel_of followed.now ≡ Some s
        → GivesWriting A.begun A.reported K.written access.old access.new sink.old sink.new
        (λ w lines. FollowsAs lines (comes (world_after w (A.reported access.old).asks.calls) s) result) }
    ensures asked { IfOk result (λ x. length (A.reported access.new).asks.calls ≡ units + x.units) }
    ensures few { IfOk result (λ x. units + x.units ≤ 9000000) }
    ensures closes { IfOk result (λ x. ClosesAs followed.now x.close) }
    ensures ends { EndsFollowing A.begun A.reported A.identity K.written K.faults result access.old access.new sink.old sink.new }
{
    if units > MOST_UNITS {
        return Err(Unclosed::Stopped(Stop::OutOfMemory));
    }
    match followed {
        Followed::Nothing => Ok(Closed {
            close: Close::Nothing,
            units: 0,
        }),
        Followed::Load { ap, image } => load_after(alloc, *ap, image, access),
        Followed::Scan { ap } => scan_after(alloc, *ap, access, sink),
    }
}
