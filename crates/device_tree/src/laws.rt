//! A law of packs, as the contract of a function that does nothing.
ghost use Rattle.serde_json.specs.Data.{Data};
ghost use Rattle.json_form.specs.Faults.{IsDecided};
ghost use Rattle.device_tree.specs.PackReading.{pack_in};

/// Every value stands for a pack or has a first fault: reading it never gives that memory was refused.
pub fn pack_or_fault()
    ensures { (d : Data) → IsDecided (pack_in d) }
{}
