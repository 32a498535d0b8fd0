//! Laws of loads: each is the contract of a function that does nothing.
ghost use Rattle.std.specs.Prelude.{◌≡◌, ℕ, List, ◌∷◌, [], map, Result, Ok, None, Some};
ghost use Rattle.hex_image.specs.Image.{Bytes, image};
ghost use Rattle.target_calls.specs.World.{World, stop};
ghost use Rattle.target_calls.specs.declared.calls.Ask.{Ask};
ghost use Rattle.image_load.specs.Laid.{CanLoad, Laid};
ghost use Rattle.image_load.specs.Meets.{IsLoad, MeetsSequel};
ghost use Rattle.image_load.specs.Pieces.{first_difference, pieces};
ghost use Rattle.image_load.specs.Rising.{ImageIsInRange};
ghost use Rattle.image_load.specs.declared.ends.LoadEnd.{LoadEnd};
ghost use Rattle.image_load.specs.declared.ends.Loaded.{Loaded};

/// By the clauses of `load`, what it answered is what its sequel comes to. The sequel follows the calls that were asked before, which do not stop.
pub fn loads_are_sequels()
    ensures { (w : World) (ap : ℕ) (image : Bytes) (result : Result Loaded LoadEnd) (old new : List Ask) (lines : ℕ) → stop w old ≡ None
        → IsLoad w ap image result old new lines → MeetsSequel w ap image result old lines }
{}

/// A load lays its image over the memory of the target. No call stops, and no byte differs. The words are the old ones with the image over them. It is so
/// where the image may be loaded: all calls are answered, the port can be used, and each byte may be written.
pub fn loads_lay_images()
    ensures { (w : World) (ap : ℕ) (image : Bytes) → CanLoad w ap image → Laid w ap image }
{}

/// Images worked out by hand. Four bytes of a word are one write. Six bytes from the second byte of a word on are six writes, since no word has all four
/// of its bytes. Where the word of the first image was read as 0, its lowest byte is the first that differs.
pub fn worked_images()
    ensures word { pieces ((0x2000_0000, 1) ∷ (0x2000_0001, 2) ∷ (0x2000_0002, 3) ∷ (0x2000_0003, 4) ∷ [])
        ≡ record { size = 4; address = 0x2000_0000; value = 0x0403_0201 } ∷ [] }
    ensures bytes { map (λ p. p.address)
        (pieces ((0x2000_0001, 1) ∷ (0x2000_0002, 2) ∷ (0x2000_0003, 3) ∷ (0x2000_0004, 4) ∷ (0x2000_0005, 5) ∷ (0x2000_0006, 6) ∷ []))
        ≡ 0x2000_0001 ∷ 0x2000_0002 ∷ 0x2000_0003 ∷ 0x2000_0004 ∷ 0x2000_0005 ∷ 0x2000_0006 ∷ [] }
    ensures differs { first_difference (record { size = 4; address = 0x2000_0000; value = 0x0403_0201 } ∷ []) (λ i. 0)
        ≡ Some (record { address = 0x2000_0000; wanted = 1; found = 0 }) }
{}

/// The image of a text of Intel HEX records has rising addresses below 2^32, and at most 262,144 bytes.
pub fn images_of_texts_rise()
    ensures { (text : List ℕ) (bytes : Bytes) → image text ≡ Ok bytes → ImageIsInRange bytes }
{}
