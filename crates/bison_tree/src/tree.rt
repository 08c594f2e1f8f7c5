//! The tree of a file.

ghost use Rattle.std.specs.Prelude.{◌≡◌, ◌+◌, ◌∷◌, ◌++◌, [], map, filter_map, length, option_map, IfOk, OnOk};
ghost use Rattle.cfgitems.specs.Building.{adds};
ghost use Rattle.cfgitems.specs.Items.{PrecedenceDeclared, RuleBegun, TokenDeclared};
ghost use Rattle.cfgitems.specs.Syntax.{syntax_of};
ghost use Rattle.cfgitems.specs.SyntaxView.{syntax_built, syntax_view};
ghost use Rattle.bison_reader.specs.Items.{item_view};
ghost use Rattle.bison_words.specs.Words.{lexeme_view, word_view};
ghost use Rattle.bison_tree.specs.Inner.Views.{is_token_in, names_in, words_in};
ghost use Rattle.bison_tree.specs.Names.{names_of};
ghost use Rattle.bison_tree.specs.Productions.{word_at};
ghost use Rattle.bison_tree.specs.Tokens.{lexeme_at};
ghost use Rattle.std.specs.String.{string_bytes};
ghost use Rattle.bison_tree.specs.Tree.{counts_items, expected_unused, first_start, inners_with};
ghost use Rattle.bison_tree.specs.Tree.{is_unneeded, is_zero, kind_of, last_expected, named_rule, number_at, number_in};
ghost use Rattle.bison_tree.specs.Tree.{printed_form, programs_items};
ghost use Rattle.bison_tree.specs.Tree.{rule_in, rules_items, said, said_after, start_items, text_in, token_quoted};
ghost use Rattle.bison_tree.specs.Tree.{tree_items};

use crate::added::if_added;
use crate::aliases::name_at;
use crate::productions::add_production;
use crate::symbols::Symbols;
use crate::tokens::{is_built_in, lexeme_at, token_names, tokens_of};
use bison_reader::{Associativity, FileText, Item};
use bison_words::{Lexeme, Word};
use cfgbase::Span;
use cfgitems::{AssocKind, AstBuilder, Syntax, built_is_syntax};
use std::alloc::{AllocError, Global};

/// How operators of a level associate, in a tree.
fn kind_of(associativity: Associativity) -> AssocKind
    ensures { result ≡ kind_of associativity }
{
    match associativity {
        Associativity::Left => AssocKind::Left,
        Associativity::Right => AssocKind::Right,
        Associativity::Nonassoc | Associativity::OnlyPrecedence => AssocKind::Nonassoc,
    }
}

/// The text of a string.
fn text_in<'a>(lexeme: Lexeme<'a>) -> &'a str
    ensures { result.now ≡ text_in (lexeme_view lexeme.entry) }
{
    match lexeme {
        Lexeme::String(text) | Lexeme::Translatable(text) => text,
        _ => "",
    }
}

/// The value of a number; 0 for any other lexeme.
pub fn number_in(lexeme: Lexeme<'_>) -> usize
    ensures { result ≡ number_in (lexeme_view lexeme.entry) }
{
    match lexeme {
        Lexeme::Number(number) => number,
        _ => 0,
    }
}

/// Whether this is the number 0.
fn is_zero(lexeme: Lexeme<'_>) -> bool
    ensures { result ≡ is_zero (lexeme_view lexeme.entry) }
{
    match lexeme {
        Lexeme::Number(number) => number == 0,
        _ => false,
    }
}

#[tactic(auto, unfolding(cfgitems::specs::Building::adds), using(crate::proofs::Adds::adds_append))]
impl<'a> Symbols<'a> {
    /// The number that a word is, and its span.
    fn number(self, word: usize) -> (usize, Span)
        ensures { result ≡ number_at (words_in self.entry) word }
    {
        (number_in(lexeme_at(self.words, word)), self.span(word))
    }

    /// Adds tokens.
    fn add_tokens(self, builder: &mut AstBuilder, tokens: &[usize]) -> Result<(), AllocError>
        ensures { OnOk result (syntax_built builder.new ≡ adds (syntax_built builder.old)
            (map (token_quoted (words_in self.entry) (names_in self.entry)) tokens.now)) }
    {
        for token in tokens {
            builder.quote_token(self.alloc, self.word(*token))?;
        }
        Ok(())
    }

    /// Whether the number 0 stands after this word.
    fn is_end(self, word: usize) -> bool
        ensures { result ≡ is_zero (lexeme_at (words_in self.entry) (word + 1)) }
    {
        match word.checked_add(1) {
            Some(next) => is_zero(lexeme_at(self.words, next)),
            None => false,
        }
    }

    /// Whether no production needs a token: the end of the text, and Bison's own.
    fn is_unneeded(self, symbol: usize) -> bool
        ensures { result ≡ is_unneeded (words_in self.entry) (names_in self.entry) symbol }
    {
        self.is_end(symbol) || is_built_in(name_at(self.names, symbol))
    }

    /// Adds that a token is expected to be unused, if no production needs it.
    fn add_expected_unused(self, builder: &mut AstBuilder, symbol: usize) -> Result<(), AllocError>
        ensures { OnOk result (syntax_built builder.new ≡ adds (syntax_built builder.old)
            (expected_unused (words_in self.entry) (names_in self.entry) symbol)) }
    {
        if self.is_unneeded(symbol) {
            return builder.expect_unused_token(self.alloc, self.word(symbol));
        }
        Ok(())
    }

    /// Adds a token.
    fn add_token(self, builder: &mut AstBuilder, symbol: usize) -> Result<(), AllocError>
        ensures { OnOk result (syntax_built builder.new ≡ adds (syntax_built builder.old)
            (TokenDeclared (word_at (words_in self.entry) (names_in self.entry) symbol)
            ∷ expected_unused (words_in self.entry) (names_in self.entry) symbol)) }
    {
        builder.declare_token(self.alloc, self.word(symbol))?;
        self.add_expected_unused(builder, symbol)
    }

    /// Adds a token of a level of precedences.
    fn add_precedence(
        self,
        builder: &mut AstBuilder,
        associativity: Associativity,
        symbol: usize,
    ) -> Result<(), AllocError>
        ensures { OnOk result (syntax_built builder.new ≡ adds (syntax_built builder.old)
            (PrecedenceDeclared (kind_of associativity) (word_at (words_in self.entry) (names_in self.entry) symbol)
            ∷ expected_unused (words_in self.entry) (names_in self.entry) symbol)) }
    {
        builder.declare_precedence(self.alloc, kind_of(associativity), self.word(symbol))?;
        self.add_expected_unused(builder, symbol)
    }

    /// Adds the string as the printed form of the token, if it is another name of it.
    fn add_printed_form(
        self,
        builder: &mut AstBuilder,
        token: usize,
        string: usize,
    ) -> Result<(), AllocError>
        ensures { OnOk result (syntax_built builder.new ≡ adds (syntax_built builder.old)
            (printed_form (words_in self.entry) (names_in self.entry) token string)) }
    {
        if name_at(self.names, token) != name_at(self.names, string) {
            return Ok(());
        }
        let text = String::from_str(self.alloc, text_in(lexeme_at(self.words, string)))?;
        builder.declare_printed_form(self.alloc, self.word(token), text, self.span(string))
    }

    /// Adds the rule whose name a colon follows.
    fn add_rule(self, builder: &mut AstBuilder, word: usize) -> Result<(), AllocError>
        ensures { OnOk result (syntax_built builder.new ≡ adds (syntax_built builder.old)
            (RuleBegun (word_at (words_in self.entry) (names_in self.entry) word)
            ∷ named_rule (words_in self.entry) (names_in self.entry) word ∷ [])) }
    {
        builder.begin_rule(self.alloc, self.word(word))?;
        builder.name_rule(self.alloc, self.head(word))
    }

    /// Adds what an item says. `inners` are the words of actions inside of productions so far.
    fn add_item(
        self,
        builder: &mut AstBuilder,
        inners: &mut Vec<usize>,
        item: &Item,
    ) -> Result<(), AllocError>
        ensures added { OnOk result (syntax_built builder.new ≡ adds (syntax_built builder.old)
            (said (words_in self.entry) (names_in self.entry) (is_token_in self.entry)
            (length inners.old.items) (item_view item.now))) }
        ensures counted { OnOk result (length inners.new.items
            ≡ inners_with (length inners.old.items) (item_view item.now)) }
    {
        match item {
            Item::Token(symbol) => self.add_token(builder, *symbol),
            Item::Alias { token, string } => self.add_printed_form(builder, *token, *string),
            Item::Precedence(associativity, symbol) => {
                self.add_precedence(builder, *associativity, *symbol)
            }
            Item::LevelEnd(associativity) => builder.end_level(kind_of(*associativity)),
            Item::Head(symbol) => self.add_rule(builder, *symbol),
            Item::Production(production) => add_production(self, builder, inners, production),
            _ => Ok(()),
        }
    }

    /// Adds what items say.
    fn add_items(self, builder: &mut AstBuilder, items: &[Item]) -> Result<(), AllocError>
        ensures { OnOk result (syntax_built builder.new ≡ adds (syntax_built builder.old)
            (said_after (words_in self.entry) (names_in self.entry) (is_token_in self.entry) 0
            (map item_view items.now))) }
    {
        let mut inners = Vec::new(self.alloc);
        for item in items {
            self.add_item(builder, &mut inners, item)?;
        }
        Ok(())
    }

    /// Adds the start that the first `%start` names.
    fn add_start(self, builder: &mut AstBuilder, items: &[Item]) -> Result<(), AllocError>
        ensures { OnOk result (syntax_built builder.new ≡ adds (syntax_built builder.old)
            (start_items (words_in self.entry) (names_in self.entry) (map item_view items.now))) }
    {
        match first_start(items) {
            Some(word) => builder.declare_start(self.alloc, self.word(word)),
            None => Ok(()),
        }
    }

    /// Adds the rules of `%nterm`.
    fn add_named_rules(self, builder: &mut AstBuilder, items: &[Item]) -> Result<(), AllocError>
        ensures { OnOk result (syntax_built builder.new ≡ adds (syntax_built builder.old)
            (map (named_rule (words_in self.entry) (names_in self.entry))
            (filter_map rule_in (map item_view items.now)))) }
    {
        for item in items {
            if let Item::Rule(symbol) = item {
                builder.name_rule(self.alloc, self.head(*symbol))?;
            }
        }
        Ok(())
    }

    /// Adds the numbers of conflicts that are expected.
    fn add_counts(self, builder: &mut AstBuilder, items: &[Item]) -> Result<(), AllocError>
        ensures { OnOk result (syntax_built builder.new ≡ adds (syntax_built builder.old)
            (counts_items (words_in self.entry) (map item_view items.now))) }
    {
        let (expect, expect_reduce_reduce) = last_expected(items);
        if let Some(word) = expect {
            builder.declare_expect(self.number(word))?;
        }
        match expect_reduce_reduce {
            Some(word) => builder.declare_expect_rr(self.number(word)),
            None => Ok(()),
        }
    }

    /// Adds everything but tokens.
    fn add_rules(self, builder: &mut AstBuilder, items: &[Item]) -> Result<(), AllocError>
        ensures { OnOk result (syntax_built builder.new ≡ adds (syntax_built builder.old)
            (rules_items (words_in self.entry) (names_in self.entry) (is_token_in self.entry)
            (map item_view items.now))) }
    {
        self.add_start(builder, items)?;
        self.add_items(builder, items)?;
        self.add_named_rules(builder, items)?;
        self.add_counts(builder, items)
    }

    /// Adds tokens, everything else that items say, and what follows the second `%%`.
    fn add_all(
        self,
        builder: &mut AstBuilder,
        tokens: &[usize],
        items: &[Item],
        epilogue: Option<&str>,
    ) -> Result<(), AllocError>
        ensures { OnOk result (syntax_built builder.new ≡ adds (syntax_built builder.old)
            (map (token_quoted (words_in self.entry) (names_in self.entry)) tokens.now
            ++ (rules_items (words_in self.entry) (names_in self.entry) (is_token_in self.entry)
            (map item_view items.now)
            ++ programs_items (option_map (λ text. text.now) epilogue.entry)))) }
    {
        self.add_tokens(builder, tokens)?;
        self.add_rules(builder, items)?;
        add_programs(self.alloc, builder, epilogue)
    }
}

/// The word by which the first `%start` names the start.
pub fn first_start(items: &[Item]) -> Option<usize>
    ensures { result ≡ first_start (map item_view items.now) }
{
    for item in items {
        if let Item::Start(symbol) = item {
            return Some(*symbol);
        }
    }
    None
}

/// The words that are the last numbers of conflicts.
fn last_expected(items: &[Item]) -> (Option<usize>, Option<usize>)
    ensures { result ≡ last_expected (map item_view items.now) }
{
    let (mut expect, mut expect_reduce_reduce) = (None, None);
    for item in items {
        match item {
            Item::Expect(number) => expect = Some(*number),
            Item::ExpectReduceReduce(number) => expect_reduce_reduce = Some(*number),
            _ => {}
        }
    }
    (expect, expect_reduce_reduce)
}

/// Adds what follows the second `%%`.
#[tactic(auto, unfolding(cfgitems::specs::Building::adds))]
fn add_programs(
    alloc: Global,
    builder: &mut AstBuilder,
    epilogue: Option<&str>,
) -> Result<(), AllocError>
    ensures { OnOk result (syntax_built builder.new ≡ adds (syntax_built builder.old)
        (programs_items (option_map (λ text. text.now) epilogue.entry))) }
{
    match epilogue {
        Some(text) => builder.give_programs(alloc, text),
        None => Ok(()),
    }
}

/// Adds all that a file says.
fn add_file(
    alloc: Global,
    builder: &mut AstBuilder,
    file: &FileText<'_>,
    names: &[String],
) -> Result<(), AllocError>
    requires { map string_bytes names.now
        ≡ names_of (map word_view file.now.words.words.items) (map item_view file.now.items.items) }
    ensures { OnOk result (syntax_built builder.new ≡ adds (syntax_built builder.old)
        (tree_items (map word_view file.now.words.words.items) (map item_view file.now.items.items)
        (option_map (λ text. text.now) file.now.words.epilogue))) }
{
    let words = file.words.words.as_slice();
    let items = file.items.as_slice();
    let tokens = tokens_of(alloc, words, items)?;
    let set = token_names(alloc, names, tokens.as_slice())?;
    let symbols = Symbols {
        alloc,
        words,
        names,
        tokens: &set,
    };
    symbols.add_all(builder, tokens.as_slice(), items, file.words.epilogue)
}

/// What a file says of its grammar, by the names of its words.
///
/// # Errors
///
/// `AllocError` if an allocation fails.
pub fn syntax_of(alloc: Global, file: &FileText<'_>, names: &[String]) -> Result<Syntax, AllocError>
    requires { map string_bytes names.now
        ≡ names_of (map word_view file.now.words.words.items) (map item_view file.now.items.items) }
    ensures { IfOk result (λ made. syntax_view made ≡ syntax_of (tree_items (map word_view file.now.words.words.items)
        (map item_view file.now.items.items) (option_map (λ text. text.now) file.now.words.epilogue))) }
{
    let mut builder = AstBuilder::new(alloc);
    let added = add_file(alloc, &mut builder, file, names);
    built_is_syntax();
    if_added(builder.finish(), added)
}
