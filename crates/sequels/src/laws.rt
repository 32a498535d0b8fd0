//! Laws of sequels: each is the contract of a function that does nothing.
ghost use Rattle.std.specs.Prelude.{◌≡◌, ℕ, None};
ghost use Rattle.target_calls.specs.World.{World};
ghost use Rattle.sequels.specs.declared.close.Close.{Close};
ghost use Rattle.sequels.specs.Laws.{ComesAfter, StopsByEnd};
ghost use Rattle.sequels.specs.Limits.{IsLimited, limited_world};
ghost use Rattle.sequels.specs.Sequel.{Sequel, comes};

/// Where a sequel has no end, its calls stop at the last one. Else they do not stop.
pub fn calls_stop_by_end()
    ensures { (w : World) (s : Sequel Close) → StopsByEnd w s }
{}

/// What one sequel after another comes to: the calls and lines of the first, and where that has an end those of the second.
pub fn one_comes_after_another()
    ensures { (w : World) (s : Sequel Close) (next : Close → Sequel Close) → ComesAfter w s next }
{}

/// Where only so many calls are answered, a sequel that asks no more is the same. Any other has the calls up to the first one that is
/// not answered, what was written before it, and no end.
pub fn limits_cut_sequels()
    ensures { (w : World) (m : ℕ) (s : Sequel Close) → w.answered ≡ None → IsLimited m (comes w s) (comes (limited_world w m) s) }
{}
