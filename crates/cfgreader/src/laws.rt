//! The laws of the grammar of Yacc files.

ghost use Rattle.std.specs.Prelude.{ℕ};
ghost use Rattle.constructs.specs.Graph.{IsGraph};
ghost use Rattle.constructs.specs.Construct.{Says, computes};
ghost use Rattle.cfgreader.specs.FileGrammar.{file};
ghost use Rattle.cfgkinds.specs.declared.kind.YaccKind.{YaccKind};

/// The plain program `file`, a function on lists of bytes, reads exactly what the grammar relates a text to: so
/// whatever follows a text's section has exactly one reading.
#[tactic(auto, using(constructs::proofs::Agree::agree))]
pub fn file_is_graph()
    ensures { (kind : YaccKind) (len : ℕ) → IsGraph (Says (file kind len)) (computes (file kind len)) }
{}
