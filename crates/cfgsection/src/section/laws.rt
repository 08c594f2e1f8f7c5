//! The laws of sections.

ghost use Rattle.std.specs.Prelude.{◌≡◌, ◌<◌, ℕ, Bool, List, length, Result, Err, All, IsUtf8};
ghost use Rattle.cfgsection.specs.SectionOffsets.{IsErrorAt};
ghost use Rattle.constructs.specs.Graph.{IsGraph};
ghost use Rattle.constructs.specs.Construct.{Says, computes};
ghost use Rattle.cfgsection.specs.SectionGrammar.{Entry, Fault, entry, section};
ghost use Rattle.cfgsection.specs.SectionReads.{IsSection, section_of, section_answer};

/// The plain program `section`, a function on lists of bytes, reads exactly what the grammar relates a text to: so the
/// section of every text has exactly one reading.
#[tactic(auto, using(constructs::proofs::Agree::agree))]
pub fn section_is_graph()
    ensures { (len : ℕ) (required : Bool)
        → IsGraph (Says (section len required)) (computes (section len required)) }
{}

/// The plain program `entry` reads exactly what the grammar relates a text to: so every text has exactly one reading of
/// an entry at its start.
#[tactic(auto, using(constructs::proofs::Agree::agree))]
pub fn entry_is_graph()
    ensures { (len : ℕ) → IsGraph (Says (entry len)) (computes (entry len)) }
{}

/// What is returned of a text, `section_of`, is what the one reading of its section gives.
#[tactic(auto, using(crate::proofs::SectionOne::section_answered))]
pub fn section_returns_its_reading()
    ensures { (required : Bool) (text : List ℕ) (entries : List Entry) (end : Result (List ℕ) Fault)
        → IsSection required text entries end
        → section_of required text ≡ section_answer entries end }
{}

/// A refused section has an error. Each error has a span, and each of its spans is a piece of the text.
pub fn section_errors_are_at_offsets()
    ensures some { (required : Bool) (text : List ℕ) (errors : List Fault) → section_of required text ≡ Err errors
        → 0 < length errors }
    ensures offsets { (required : Bool) (text : List ℕ) (errors : List Fault) → IsUtf8 text
        → section_of required text ≡ Err errors → All (IsErrorAt text) errors }
{}
