//! Laws of what texts are read as.

ghost use Rattle.std.specs.Prelude.{◌≡◌, ℕ, [], All, List, Option};
ghost use Rattle.std.specs.Str.{IsUtf8};
ghost use Rattle.cfgwords.specs.TextSpans.{IsPiece, IsWithin};
ghost use Rattle.cfgitems.specs.Syntax.{EachSpan, syntax_of};
ghost use Rattle.cfgast.specs.WellFormed.{IsWellFormed};
ghost use Rattle.cfgnumbers.specs.Resolved.{IsResolved};
ghost use Rattle.bison_reader.specs.Sorts.{items_in, words_in};
ghost use Rattle.bison_errors.specs.Reading.{name_errors_of, text_errors_of, tree_of};
ghost use Rattle.bison_tree.specs.Tree.{tree_items};
ghost use Rattle.cfgrammar.specs.BisonErrorPlaces.{IsErrorAt};

/// Each span of a text's tree is a piece of the text, whatever follows the second `%%`; an action's lies within it.
/// Each span of an error is a piece of the text too.
pub fn spans_are_pieces()
    ensures tree { (text : List ℕ) (programs : Option (List ℕ)) → IsUtf8 text
        → EachSpan (IsPiece text) (IsWithin text) (syntax_of (tree_items (words_in text) (items_in text) programs)) }
    ensures text_errors { (text : List ℕ) → IsUtf8 text → All (IsErrorAt text) (text_errors_of text) }
    ensures name_errors { (text : List ℕ) → IsUtf8 text → All (IsErrorAt text) (name_errors_of text) }
{}

/// The tree of every text is well formed. If the text has no error, every name in its tree refers to something that
/// exists: there is a start, it is a rule, and each symbol of a production is a rule or a token.
pub fn trees_without_errors_are_resolved()
    ensures well_formed { (text : List ℕ) → IsWellFormed (tree_of text) }
    ensures resolved { (text : List ℕ) → text_errors_of text ≡ [] → name_errors_of text ≡ []
        → IsResolved (tree_of text) }
{}
