//! How many accesses there are of each register.
ghost use Rattle.std.specs.Prelude.{◌≡◌, ◌<◌, IfOk, slice_index, vec_len};
ghost use Rattle.trace_compare.specs.Counts.{zero_counts, no_counts, counts_with_access, all_counted};

use dap_base::OutOfMemory;
use register_words::RegisterAccess;
use std::alloc::Global;
use std::marker::Model;

// How many places accesses have.
pub const PLACES: u16 = 32800;

// So many zeros.
#[tactic(auto, unfolding(crate::specs::Counts::zero_counts))]
fn zeros(alloc: Global, count: usize) -> Result<Vec<u64>, OutOfMemory>
    ensures items { IfOk result (λ v. v.items ≡ zero_counts count) }
    ensures len { IfOk result (λ v. vec_len v ≡ count) }
{
    match vec![in alloc; 0u64; count] {
        Ok(zeros) => Ok(zeros),
        Err(_) => Err(OutOfMemory),
    }
}

/// How many accesses there are of each place, seen by contracts as the list of the counts.
#[derive(Drop)]
pub struct Counts {
    counts: Vec<u64>,
}

impl Model for Counts {
    ghost use Rattle.std.specs.Prelude.{◌≡◌, ℕ, List, vec_len};

    ghost Value = { List ℕ };

    ghost view = { λ c. c.counts.items };

    ghost invariant = { λ c. vec_len c.counts ≡ 32800 };
}

impl Counts {
    /// No access. `OutOfMemory` where memory is refused.
    pub fn new(alloc: Global) -> Result<Counts, OutOfMemory>
        ensures { IfOk result (λ counts. counts ≡ no_counts) }
    {
        let counts = zeros(alloc, 32800)?;
        Ok(Counts { counts })
    }

    // One access more.
    #[tactic(auto, unfolding(crate::specs::Counts::counts_with_access))]
    fn add(&mut self, access: RegisterAccess)
        ensures { self.new ≡ counts_with_access self.old access }
    {
        let place = access.place();
        self.counts[place] = self.counts[place].saturating_add(1);
    }

    /// Accesses, one after the other.
    pub fn add_all(&mut self, accesses: &[RegisterAccess])
        ensures { self.new ≡ all_counted self.old accesses.now }
    {
        for access in accesses {
            self.add(*access);
        }
    }

    /// The count of a place.
    pub fn get(&self, place: u16) -> u64
        requires { place < 32800 }
        ensures { result ≡ slice_index self.now place }
    {
        self.counts[usize::from(place)]
    }
}
