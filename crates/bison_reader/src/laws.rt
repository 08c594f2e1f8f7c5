//! Laws of the grammar of files.

ghost use Rattle.std.specs.Prelude.{ℕ, List, All};
ghost use Rattle.constructs.specs.Construct.{Says, computes};
ghost use Rattle.constructs.specs.Graph.{IsGraph};
ghost use Rattle.bison_reader.specs.FileGrammar.{file, items_of};
ghost use Rattle.bison_reader.specs.ItemWords.{IsWellSorted};
ghost use Rattle.bison_reader.specs.Sorts.{words_in};
ghost use Rattle.bison_reader.specs.WordNames.{BeginsAsName};
ghost use Rattle.bison_reader.specs.declared.sort.Sort.{Sort};

/// Words of any sorts have exactly one reading as a file, and the plain program gives it.
#[tactic(auto, using(constructs::proofs::Agree::agree))]
pub fn file_is_graph()
    ensures { (words : List Sort) → IsGraph (Says (file words)) (computes (file words)) }
{}

/// In what is read of any words, the names of rules are identifiers, and other names of tokens are strings.
#[tactic(auto, using(crate::proofs::ItemWords::items_well_sorted))]
pub fn items_are_well_sorted()
    ensures { (words : List Sort) → All (IsWellSorted words) (items_of words) }
{}

/// In texts of any bytes, identifiers begin with a letter, a digit, `_`, `.` or `-`.
#[tactic(auto, using(crate::proofs::WordNames::words_named))]
pub fn identifiers_are_names()
    ensures { (text : List ℕ) → All (λ word. BeginsAsName word.lexeme) (words_in text) }
{}
