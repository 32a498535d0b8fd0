//! The target of the tests.
ghost use Rattle.std.specs.Prelude.{◌≡◌, ◌≤◌, true, false, [], ◌∷◌, IfOk};
ghost use Rattle.target_machine.specs.Ranges.{IsTargetJob};

use crate::{RowError, Setting};
use dap_base::{ItemList, OutOfMemory};
use std::alloc::Global;
use target_machine::{
    ApJob, ApJobs, RegionJob, RegionJobs, ScriptJob, ScriptJobs, TargetJob, WordJob, WordJobs,
};

fn list<T: Copy + Drop>(alloc: Global, items: &[T]) -> Result<ItemList<T>, OutOfMemory>
    ensures { IfOk result (λ list. list ≡ items.now) }
{
    let mut list = ItemList::new(alloc);
    for item in items {
        list.push(*item)?;
    }
    Ok(list)
}

// AP 3 before AP 0.
fn ports(alloc: Global, csw: u32, la: bool) -> Result<ApJobs, OutOfMemory>
    ensures { IfOk result (λ aps. aps ≡ record { ap = 3; idr = 1; base = 2; csw = 0; la = false } ∷ record { ap = 0; idr = 0x2477_0011; base = 0xE00F_F003; csw = csw; la = la } ∷ []) }
{
    let small = ApJob {
        ap: 3,
        idr: 1,
        base: 2,
        csw: 0,
        la: false,
    };
    let first = ApJob {
        ap: 0,
        idr: 0x2477_0011,
        base: 0xE00F_F003,
        csw,
        la,
    };
    list(alloc, &[small, first])
}

// Three regions that are not in order, the last of them read-only.
fn regions(alloc: Global) -> Result<RegionJobs, OutOfMemory>
    ensures { IfOk result (λ regions. regions ≡ record { address = 0x1_0000_0000; length = 4096; read_only = false } ∷ record { address = 0x2000_0000; length = 4096; read_only = false }
        ∷ record { address = 0x2000_1000; length = 16; read_only = true } ∷ []) }
{
    let large = RegionJob {
        address: 0x1_0000_0000,
        length: 4096,
        read_only: false,
    };
    let ram = RegionJob {
        address: 0x2000_0000,
        length: 4096,
        read_only: false,
    };
    let rom = RegionJob {
        address: 0x2000_1000,
        length: 16,
        read_only: true,
    };
    list(alloc, &[large, ram, rom])
}

// The first two words of the RAM, and the first of the ROM.
fn words(alloc: Global, first: u32, second: u32) -> Result<WordJobs, OutOfMemory>
    ensures { IfOk result (λ words. words ≡ record { address = 0x2000_0000; value = first } ∷ record { address = 0x2000_0004; value = second }
        ∷ record { address = 0x2000_1000; value = 0xAABB_CCDD } ∷ []) }
{
    let first = WordJob {
        address: 0x2000_0000,
        value: first,
    };
    let second = WordJob {
        address: 0x2000_0004,
        value: second,
    };
    let third = WordJob {
        address: 0x2000_1000,
        value: 0xAABB_CCDD,
    };
    list(alloc, &[first, second, third])
}

// A word that gives 1, 2 and then 3.
fn scripts(alloc: Global) -> Result<ScriptJobs, OutOfMemory>
    ensures { IfOk result (λ scripts. scripts ≡ record { address = 0x2000_0010; values = 1 ∷ 2 ∷ 3 ∷ [] } ∷ []) }
{
    let mut scripts = ScriptJobs::new(alloc);
    scripts.push(ScriptJob {
        address: 0x2000_0010,
        values: list(alloc, &[1, 2, 3])?,
    })?;
    Ok(scripts)
}

// The first word of the RAM after a reset.
fn resets(alloc: Global) -> Result<WordJobs, OutOfMemory>
    ensures { IfOk result (λ words. words ≡ record { address = 0x2000_0000; value = 7 } ∷ []) }
{
    list(
        alloc,
        &[WordJob {
            address: 0x2000_0000,
            value: 7,
        }],
    )
}

// The target so set, whose power-up takes so few reads.
fn target_in_range(alloc: Global, setting: &Setting) -> Result<TargetJob, OutOfMemory>
    requires { setting.now.power_reads ≤ 1000000 }
    ensures { IfOk result IsTargetJob }
{
    Ok(TargetJob {
        dpidr: 0x2BA0_1477,
        powered: setting.powered,
        power_reads: setting.power_reads,
        pins: 0xA0,
        carry: setting.carry,
        aps: ports(alloc, setting.csw, setting.large)?,
        memory: regions(alloc)?,
        words: words(alloc, setting.words[0], setting.words[1])?,
        scripts: scripts(alloc)?,
        reset: resets(alloc)?,
    })
}

/// The target of the tests, so set. Its AP 0 has IDR 0x24770011 and BASE 0xE00FF003, its AP 3 IDR 1 and BASE 2. Memory is at
/// 0x20000000 and at 0x100000000, 4,096 bytes each, and read-only at 0x20001000, 16 bytes whose first word is 0xAABBCCDD. The
/// word at 0x20000010 gives 1, 2 and 3 to its first reads. A reset sets the word at 0x20000000 to 7. The pins are 0xA0.
pub fn target_of(alloc: Global, setting: &Setting) -> Result<TargetJob, RowError>
    ensures { IfOk result IsTargetJob }
{
    if setting.power_reads > 1_000_000 {
        return Err(RowError::Unreadable);
    }
    match target_in_range(alloc, setting) {
        Ok(job) => Ok(job),
        Err(OutOfMemory) => Err(RowError::OutOfMemory),
    }
}
