//! Annotations and results are lines.

ghost use Rattle.std.specs.Prelude.{Contains, List, ℕ};
ghost use Rattle.serde_json.specs.Written.{compact_text};
ghost use Rattle.cfgjson.specs.Annotations.{IsLine, annotation};
ghost use Rattle.cfgjson.specs.Objects.{ShownDiagnostic};
ghost use Rattle.cfgjson.specs.Sarif.{sarif_result};

/// An annotation of GitHub is one line, whatever the name of the file and the message have.
#[tactic(auto, using(crate::proofs::FormatLines::annotation_is_line))]
pub fn annotations_are_lines()
    ensures { (name text : List ℕ) (shown : ShownDiagnostic) → IsLine (annotation name text shown) }
{}

/// So is a result of SARIF: it has no LF.
pub fn results_are_lines()
    ensures { (name text : List ℕ) (shown : ShownDiagnostic)
        → Contains (compact_text (sarif_result name text shown)) 10 → ⊥ }
{}
