//! What holds of every stream, whatever decodes it.
ghost use Rattle.std.specs.Prelude.{◌≡◌, ◌++◌, ℕ, List};
ghost use Rattle.apx_wire.specs.declared.message.Message.{Message};
ghost use Rattle.apx_wire.specs.declared.fault.WireFault.{WireFault};
ghost use Rattle.apx_wire.specs.Spelling.{IsMessage, spelling};
ghost use Rattle.apx_wire.specs.Stream.{Decoding, Decodes, Rejects};

/// No message's bytes begin another's, so bytes begin with one message at most.
pub fn no_spelling_begins_another()
    ensures { (a b : Message) (x y : List ℕ) → IsMessage a → IsMessage b → spelling a ++ x ≡ spelling b ++ y → (a ≡ b) × (x ≡ y) }
{}

/// A stream that was taken has one reading, however it was cut, and nothing is wrong with it; in
/// any other one thing is the first that is wrong.
pub fn streams_have_one_reading()
    ensures taken { (stream : List ℕ) (handed others : List Message) (d e : Decoding) →
        Decodes stream handed d → Decodes stream others e → (handed ++ d.held ≡ others ++ e.held) × (d.rest ≡ e.rest) }
    ensures apart { (stream : List ℕ) (handed : List Message) (d : Decoding) (fault : WireFault) →
        Decodes stream handed d → Rejects stream fault → ⊥ }
    ensures rejected { (stream : List ℕ) (f g : WireFault) → Rejects stream f → Rejects stream g → f ≡ g }
{}
