//! The law of the words of a text.

ghost use Rattle.std.specs.Prelude.{ℕ};
ghost use Rattle.constructs.specs.Graph.{IsGraph};
ghost use Rattle.constructs.specs.Construct.{Says, computes};
ghost use Rattle.bison_words.specs.TextWords.{text_words};

/// The plain program `text_words`, a function on lists of bytes, reads exactly what the construct relates a text to: so
/// each text has exactly one reading.
#[tactic(auto, using(constructs::proofs::Agree::agree))]
pub fn text_words_is_graph()
    ensures { (len : ℕ) → IsGraph (Says (text_words len)) (computes (text_words len)) }
{}
