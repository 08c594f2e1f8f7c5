//! What the words of a file are for its tree.

ghost use Rattle.std.specs.Prelude.{◌≡◌, ℕ, List, map, option_map, IfOk};
ghost use Rattle.std.specs.String.{string_bytes};
ghost use Rattle.bison_words.specs.Words.{lexeme_view, word_view};
ghost use Rattle.cfgitems.specs.SyntaxView as tree;
ghost use Rattle.bison_tree.specs.Inner.Views.{is_token_in, names_in, words_in};
ghost use Rattle.bison_tree.specs.Productions.{code_at, code_in, code_of, head_at, token_at, word_at};
ghost use Rattle.bison_tree.specs.Tokens.{span_at};

use crate::aliases::name_at;
use crate::sets::has_name;
use crate::tokens::{lexeme_at, span_at};
use bison_words::{Lexeme, Word};
use cfgbase::Span;
use cfgitems::RuleHead;
use cfgwords::words as tree;
use indexmap::IndexSet;
use std::alloc::Global;

/// The words of a file, their names, and the names of its tokens.
#[derive(Clone, Copy)]
pub(crate) struct Symbols<'a> {
    pub(crate) alloc: Global,
    pub(crate) words: &'a [Word<'a>],
    pub(crate) names: &'a [String],
    pub(crate) tokens: &'a IndexSet<String>,
}

/// The text of code, and its span.
fn code_in<'a>(lexeme: Lexeme<'a>) -> Option<(&'a str, Span)>
    ensures { option_map (λ code. (code.0.now, code.1)) result ≡ code_in (lexeme_view lexeme.entry) }
{
    match lexeme {
        Lexeme::Code(code) => Some((code.text, code.span)),
        _ => None,
    }
}

impl<'a> Symbols<'a> {
    /// The span of a word.
    pub(crate) fn span(self, word: usize) -> Span
        ensures { result ≡ span_at (words_in self.entry) word }
    {
        span_at(self.words, word)
    }

    /// The name of a word, and its span.
    pub(crate) fn word(self, word: usize) -> tree::Word<'a>
        ensures { tree.word_view result ≡ word_at (words_in self.entry) (names_in self.entry) word }
    {
        tree::Word {
            name: name_at(self.names, word),
            span: self.span(word),
        }
    }

    /// The head of the rule that a word names.
    pub(crate) fn head(self, word: usize) -> RuleHead<'a>
        ensures { tree.head_view result ≡ head_at (words_in self.entry) (names_in self.entry) word }
    {
        RuleHead {
            name: self.word(word),
            action_type: None,
        }
    }

    /// The token that a word names.
    pub(crate) fn token(self, quoted: bool, word: usize) -> tree::Token<'a>
        ensures { tree.token_view result ≡ token_at (words_in self.entry) (names_in self.entry) quoted word }
    {
        let span = self.span(word);
        tree::Token {
            name: name_at(self.names, word),
            span,
            quoted,
            end: span.end(),
        }
    }

    /// Whether a word names a token.
    pub(crate) fn is_token(self, word: usize) -> bool
        ensures { result ≡ is_token_in self.entry (word_at (words_in self.entry) (names_in self.entry) word).name }
    {
        has_name(self.tokens, name_at(self.names, word))
    }

    /// The text and the span of the code that a word is, if there is one.
    pub(crate) fn code_of(self, word: Option<usize>) -> Option<(&'a str, Span)>
        ensures { option_map (λ code. (code.0.now, code.1)) result ≡ code_of (words_in self.entry) word }
    {
        match word {
            Some(word) => self.code(word),
            None => None,
        }
    }

    /// The code that a word is, and its span.
    pub(crate) fn code(self, word: usize) -> Option<(&'a str, Span)>
        ensures { option_map (λ code. (code.0.now, code.1)) result ≡ code_at (words_in self.entry) word }
    {
        code_in(lexeme_at(self.words, word))
    }
}
