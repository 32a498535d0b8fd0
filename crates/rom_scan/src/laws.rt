//! Laws of scans: each is the contract of a function that does nothing.
ghost use Rattle.std.specs.Prelude.{ℕ, ◌<◌, ◌^◌};
ghost use Rattle.target_calls.specs.declared.calls.Ask.{Ask};
ghost use Rattle.target_calls.specs.World.{World};
ghost use Rattle.rom_scan.specs.Listing.{ListsComponents};
ghost use Rattle.rom_scan.specs.Showing.{CanScan, ListsTarget};

/// Where each call has the result that a function gives of it, a scan lists the components that these results show, up to as many as
/// it may list. It is full exactly where there are more.
pub fn components_are_listed()
    ensures { (f : Ask → ℕ) (most ap : ℕ) → ListsComponents f most ap }
{}

/// Let the words of a target be readable by an access port. A scan by it lists the components that these words show, up to as many as it
/// may list. It is full exactly where there are more. The words stay.
pub fn targets_are_listed()
    ensures { (w : World) (most ap : ℕ) → ap < 2 ^ 8 → CanScan w ap → ListsTarget w most ap }
{}
