//! A law of words, as the contract of a function that does nothing.
ghost use Rattle.std.specs.Prelude.{◌≡◌, ℕ, List, Option};
ghost use Rattle.hex.specs.Hex.{IsBytes};
ghost use Rattle.register_words.specs.declared.known.KnownRegisters.{KnownRegisters};
ghost use Rattle.packet_words.specs.Exchange.{exchange};
ghost use Rattle.packet_words.specs.Laws.{AreBytes};

/// The words of an exchange determine the bytes of its packet and of its reply. Equal words are of equal bytes, whatever was known before
/// and whichever numbers the exchanges have.
pub fn equal_words()
    ensures { (first second : KnownRegisters) (m n : ℕ) (p q : List ℕ) (a b : Option (List ℕ)) → IsBytes p → IsBytes q → AreBytes a → AreBytes b
        → (exchange first m p a).text ≡ (exchange second n q b).text → (p ≡ q) × (a ≡ b) }
{}
