//! Laws of blanks and words: the functions of specs/ find exactly what its relations say; and what `==` and `clone` of
//! this crate's types compare and copy.

ghost use Rattle.std.specs.Prelude.{◌≡◌, ◌↔◌, ℕ, Bool, List, IsTrue};
ghost use Rattle.constructs.specs.Graph.{IsGraph};
ghost use Rattle.cfgwords.specs.Blank.{IsPrefix, prefix_of, Blank, blank};
ghost use Rattle.cfgwords.specs.Strings.{EppString, epp_string};
ghost use Rattle.cfgwords.specs.ColonText.{ColonText, colon_text};
ghost use Rattle.cfgwords.specs.Actions.{IsAction, action_of};
ghost use Rattle.cfgwords.specs.SectionWords.{IsName as IsSectionName, name_of as section_name_of, IsText, text_of};
ghost use Rattle.cfgwords.specs.FileWords.{IsName, name_of, IsIdentifier, identifier_of, IsQuoted, quoted_of};
ghost use Rattle.cfgwords.specs.FileWords.{TokenText};
ghost use Rattle.cfgwords.specs.FileWords.{IsToken, token_of, IsInteger, integer_of, LineRest, line_rest};
ghost use Rattle.cfgwords.specs.declared.blank.Prefix.{Prefix};
ghost use Rattle.cfgwords.specs.declared.bytes.ByteClass.{ByteClass};
ghost use Rattle.cfgwords.specs.declared.fault.Fault.{Fault};
ghost use Rattle.cfgwords.specs.declared.fault.FaultKind.{FaultKind};
ghost use Rattle.cfgwords.specs.declared.passed.Passed.{Passed};
ghost use Rattle.cfgwords.specs.declared.words.Token.{Token};
ghost use Rattle.cfgwords.specs.declared.words.Word.{Word};

use crate::blank::Prefix;
use crate::bytes::ByteClass;
use crate::fault::{Fault, FaultKind};
use crate::passed::Passed;
use crate::words::{Token, Word};

/// How a text begins is unique, and `Prefix::of` returns it.
#[tactic(auto, using(crate::proofs::Blanks::prefix_graph))]
pub fn prefix_is_graph()
    ensures { IsGraph IsPrefix prefix_of }
{}

/// A blank is read in exactly one way, whatever the text.
#[tactic(auto, using(crate::proofs::Blanks::blank_graph))]
pub fn blank_is_graph()
    ensures { (len : ℕ) (lines : Bool) → IsGraph (Blank len lines) (blank len lines) }
{}

/// Every name is found, and only names are.
#[tactic(auto, using(crate::proofs::Finders::name_finder))]
pub fn names_found()
    ensures sound { (text word rest : List ℕ) → name_of text ≡ Some (word, rest) → IsName text word rest }
    ensures only { (text word rest : List ℕ) → IsName text word rest → name_of text ≡ Some (word, rest) }
{}

/// Every identifier is found, and only identifiers are.
#[tactic(auto, using(crate::proofs::Finders::identifier_finder))]
pub fn identifiers_found()
    ensures sound { (text word rest : List ℕ) → identifier_of text ≡ Some (word, rest)
        → IsIdentifier text word rest }
    ensures only { (text word rest : List ℕ) → IsIdentifier text word rest
        → identifier_of text ≡ Some (word, rest) }
{}

/// Every quoted token is found, and only quoted tokens are.
#[tactic(auto, using(crate::proofs::Finders::quoted_finder))]
pub fn quoted_tokens_found()
    ensures sound { (text word rest : List ℕ) → quoted_of text ≡ Some (word, rest) → IsQuoted text word rest }
    ensures only { (text word rest : List ℕ) → IsQuoted text word rest → quoted_of text ≡ Some (word, rest) }
{}

/// Every token is found, and only tokens are.
#[tactic(auto, using(crate::proofs::Finders::token_finder))]
pub fn tokens_found()
    ensures sound { (text : List ℕ) (token : TokenText) (rest : List ℕ) → token_of text ≡ Some (token, rest)
        → IsToken text token rest }
    ensures only { (text : List ℕ) (token : TokenText) (rest : List ℕ) → IsToken text token rest
        → token_of text ≡ Some (token, rest) }
{}

/// Every integer is found, and only integers are.
#[tactic(auto, using(crate::proofs::Finders::integer_finder))]
pub fn integers_found()
    ensures sound { (text : List ℕ) (number : ℕ) (rest : List ℕ) → integer_of text ≡ Some (number, rest)
        → IsInteger text number rest }
    ensures only { (text : List ℕ) (number : ℕ) (rest : List ℕ) → IsInteger text number rest
        → integer_of text ≡ Some (number, rest) }
{}

/// The rest of a line is unique, whatever the text.
#[tactic(auto, using(crate::proofs::LineRests::line_rest_graph))]
pub fn line_rest_is_graph()
    ensures { IsGraph LineRest line_rest }
{}

/// The string of an `%epp` is unique, whatever the text.
#[tactic(auto, using(crate::proofs::EppStrings::epp_string_graph))]
pub fn epp_string_is_graph()
    ensures { (len : ℕ) → IsGraph (EppString len) (epp_string len) }
{}

/// The text up to a single colon is unique, whatever the text.
#[tactic(auto, using(crate::proofs::ColonTexts::colon_text_graph))]
pub fn colon_text_is_graph()
    ensures { (len : ℕ) → IsGraph (ColonText len) (colon_text len) }
{}

/// Every action is found, and only actions are.
#[tactic(auto, using(crate::proofs::Finders::action_finder))]
pub fn actions_found()
    ensures sound { (text word rest : List ℕ) → action_of text ≡ Some (word, rest) → IsAction text word rest }
    ensures only { (text word rest : List ℕ) → IsAction text word rest → action_of text ≡ Some (word, rest) }
{}

/// Every name of a section is found, and only such names are.
pub fn section_names_found()
    ensures sound { (text word rest : List ℕ) → section_name_of text ≡ Some (word, rest)
        → IsSectionName text word rest }
    ensures only { (text word rest : List ℕ) → IsSectionName text word rest
        → section_name_of text ≡ Some (word, rest) }
{}

/// Every text between double quotes is found, and only such texts are.
pub fn texts_found()
    ensures sound { (text word rest : List ℕ) → text_of text ≡ Some (word, rest) → IsText text word rest }
    ensures only { (text word rest : List ℕ) → IsText text word rest → text_of text ≡ Some (word, rest) }
{}

/// Two classes of bytes are equal exactly if they are the same. A clone equals its source and allocates nothing.
pub fn byte_classes_are_distinct()
    ensures equal { (a b : ByteClass) → IsTrue (⟦<ByteClass as PartialEq>⟧.eq a b) ↔ (a ≡ b) }
    ensures clone { (a b : ByteClass) → ⟦<ByteClass as Clone>⟧.is_clone a b → b ≡ a }
    ensures cloned { (a : ByteClass) → ⟦<ByteClass as Clone>⟧.is_infallible a }
{}

/// Two kinds of passed bytes are equal exactly if they are the same, for strings with the same quote. A clone equals
/// its source and allocates nothing.
pub fn passed_are_distinct()
    ensures equal { (a b : Passed) → IsTrue (⟦<Passed as PartialEq>⟧.eq a b) ↔ (a ≡ b) }
    ensures clone { (a b : Passed) → ⟦<Passed as Clone>⟧.is_clone a b → b ≡ a }
    ensures cloned { (a : Passed) → ⟦<Passed as Clone>⟧.is_infallible a }
{}

/// Two kinds of faults are equal exactly if they are the same. A clone equals its source and allocates nothing.
pub fn fault_kinds_are_distinct()
    ensures equal { (a b : FaultKind) → IsTrue (⟦<FaultKind as PartialEq>⟧.eq a b) ↔ (a ≡ b) }
    ensures clone { (a b : FaultKind) → ⟦<FaultKind as Clone>⟧.is_clone a b → b ≡ a }
    ensures cloned { (a : FaultKind) → ⟦<FaultKind as Clone>⟧.is_infallible a }
{}

/// Two faults are equal exactly if their kinds and spans are. A clone equals its source and allocates nothing.
pub fn faults_are_distinct()
    ensures equal { (a b : Fault) → IsTrue (⟦<Fault as PartialEq>⟧.eq a b) ↔ (a ≡ b) }
    ensures clone { (a b : Fault) → ⟦<Fault as Clone>⟧.is_clone a b → b ≡ a }
    ensures cloned { (a : Fault) → ⟦<Fault as Clone>⟧.is_infallible a }
{}

/// A clone of a name in a text equals its source and allocates nothing.
pub fn words_are_cloned<'a>()
    ensures clone { (a b : Word) → ⟦<Word<'a> as Clone>⟧.is_clone a b → b ≡ a }
    ensures cloned { (a : Word) → ⟦<Word<'a> as Clone>⟧.is_infallible a }
{}

/// A clone of a token in a text equals its source and allocates nothing.
pub fn tokens_are_cloned<'a>()
    ensures clone { (a b : Token) → ⟦<Token<'a> as Clone>⟧.is_clone a b → b ≡ a }
    ensures cloned { (a : Token) → ⟦<Token<'a> as Clone>⟧.is_infallible a }
{}

/// A clone of how a blank begins equals its source and allocates nothing.
pub fn prefixes_are_cloned<'a>()
    ensures clone { (a b : Prefix) → ⟦<Prefix<'a> as Clone>⟧.is_clone a b → b ≡ a }
    ensures cloned { (a : Prefix) → ⟦<Prefix<'a> as Clone>⟧.is_infallible a }
{}
