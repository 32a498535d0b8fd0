//! Need points.
ghost use Rattle.std.specs.Prelude.{◌≡◌, ℕ, ◌+◌, ◌^◌, ◌<◌, ◌≤◌, [], ◌∷◌, ◌++◌, length};
ghost use Rattle.target_calls.specs.NeedPoints.{Asks, Cost, asks_with_call, asks_at_finish, asks_at_need, needed_more, asks_at_use};
ghost use Rattle.target_calls.specs.declared.calls.Ask.{Ask};
ghost use Rattle.target_calls.specs.declared.calls.Slot.{Slot};

/// Need points add up, to the last value of their count, and leave what was asked.
pub fn need_points_add()
    ensures add { (few more : ℕ) (asks : Asks) → needed_more more (needed_more few asks) ≡ needed_more (few + more) asks }
    ensures exact { (more : ℕ) (asks : Asks) → asks.needs + more < 2 ^ 64 → (needed_more more asks).needs ≡ asks.needs + more }
    ensures most { (more : ℕ) (asks : Asks) → (needed_more more asks).needs ≤ asks.needs + more }
    ensures least { (more : ℕ) (asks : Asks) → asks.needs < 2 ^ 64 → asks.needs ≤ (needed_more more asks).needs }
    ensures calls { (more : ℕ) (asks : Asks) → (needed_more more asks).calls ≡ asks.calls }
    ensures used { (slot : Slot) (asks : Asks) → (asks_at_use slot asks).calls ≡ asks.calls }
    ensures asked { (cost : Cost) (ask : Ask) (asks : Asks) → (asks_with_call cost ask asks).calls ≡ asks.calls ++ ask ∷ [] }
{}

/// After a need point the use of a slot that was asked before it makes none.
pub fn uses_after_a_need_point()
    ensures needed { (slot : Slot) (asks : Asks) → slot.index < length asks.calls → asks_at_use slot (asks_at_need asks) ≡ asks_at_need asks }
    ensures finished { (slot : Slot) (asks : Asks) → slot.index < length asks.calls
        → asks_at_use slot (asks_at_need (asks_at_finish asks)) ≡ asks_at_need (asks_at_finish asks) }
    ensures used { (slot : Slot) (asks : Asks) → slot.index < length asks.calls → asks_at_use slot (asks_at_use slot asks) ≡ asks_at_use slot asks }
{}
