//! Adding a production to a tree, with the rules of the actions inside of it.

ghost use Rattle.std.specs.Prelude.{◌≡◌, [], map, filter_map, length, IfOk, OnOk};
ghost use Rattle.lemmas.specs.Lists.{pushed};
ghost use Rattle.cfgitems.specs.Building.{add, adds};
ghost use Rattle.cfgitems.specs.Items.{Alternative};
ghost use Rattle.cfgitems.specs.SyntaxView as tree;
ghost use Rattle.cfgitems.specs.SyntaxView.{syntax_built};
ghost use Rattle.bison_reader.specs.Items.{production_view};
ghost use Rattle.bison_tree.specs.Inner.Views.{body_with, is_token_in, names_in, symbol_view, words_in};
ghost use Rattle.bison_tree.specs.Productions.{head_at, inner_production, inners_after, precedences_of};
ghost use Rattle.bison_tree.specs.Productions.{production_items, span_of, symbol_of};

use crate::piece::Piece;
use crate::pieces::{action_of, end_of, inner_name, pieces_of, precedence_of};
use crate::symbols::Symbols;
use bison_reader::Production;
use cfgbase::Span;
use cfgitems::{AstBuilder, Body, RuleHead};
use cfgwords::words::{Token, Word};
use std::alloc::{AllocError, Global};

/// A symbol of a production, with its name.
#[derive(Drop)]
pub(crate) struct BodySymbol {
    pub(crate) name: String,
    pub(crate) span: Span,
    pub(crate) quoted: bool,
}

/// The symbol that a piece is.
fn symbol_of(symbols: Symbols<'_>, piece: Piece) -> Result<BodySymbol, AllocError>
    ensures { IfOk result (λ symbol. symbol_view symbol
        ≡ symbol_of (words_in symbols.entry) (names_in symbols.entry) (is_token_in symbols.entry) piece) }
{
    match piece {
        Piece::Symbol(word) => {
            let named = symbols.word(word);
            Ok(BodySymbol {
                name: String::from_str(symbols.alloc, named.name)?,
                span: named.span,
                quoted: symbols.is_token(word),
            })
        }
        Piece::Inner { code, number } => Ok(BodySymbol {
            name: inner_name(symbols.alloc, number)?,
            span: symbols.span(code),
            quoted: false,
        }),
    }
}

/// The symbols that pieces are.
fn symbols_of(symbols: Symbols<'_>, pieces: &[Piece]) -> Result<Vec<BodySymbol>, AllocError>
    ensures { IfOk result (λ body. map symbol_view body.items
        ≡ map (symbol_of (words_in symbols.entry) (names_in symbols.entry) (is_token_in symbols.entry)) pieces.now) }
{
    let mut body = Vec::new(symbols.alloc);
    for piece in pieces {
        body.push(symbol_of(symbols, *piece)?)?;
    }
    Ok(body)
}

/// The same symbols, as the tree's builder takes them.
fn tokens_of(alloc: Global, body: &[BodySymbol]) -> Result<Vec<Token<'_>>, AllocError>
    ensures { IfOk result (λ tokens. map tree.token_view tokens.items ≡ map symbol_view body.now) }
{
    let mut tokens = Vec::new(alloc);
    for symbol in body {
        tokens.push(Token {
            name: symbol.name.as_str(),
            span: symbol.span,
            quoted: symbol.quoted,
            end: symbol.span.end(),
        })?;
    }
    Ok(tokens)
}

/// The token of a `%prec`, by its word, if there is one.
fn precedences_of<'a>(
    symbols: Symbols<'a>,
    word: Option<usize>,
) -> Result<Vec<Token<'a>>, AllocError>
    ensures { IfOk result (λ tokens. map tree.token_view tokens.items
        ≡ precedences_of (words_in symbols.entry) (names_in symbols.entry) word) }
{
    let mut precedences = Vec::new(symbols.alloc);
    if let Some(word) = word {
        precedences.push(symbols.token(true, word))?;
    }
    Ok(precedences)
}

/// Adds the rule of an action, with its empty production.
#[tactic(auto, unfolding(cfgitems::specs::Building::adds), using(crate::proofs::Adds::adds_append))]
fn add_inner(symbols: Symbols<'_>, builder: &mut AstBuilder, piece: Piece) -> Result<(), AllocError>
    ensures { OnOk result (syntax_built builder.new ≡ adds (syntax_built builder.old)
        (pushed [] (inner_production (words_in symbols.entry) piece))) }
{
    let Piece::Inner { code, number } = piece else {
        return Ok(());
    };
    let name = inner_name(symbols.alloc, number)?;
    let span = symbols.span(code);
    let head = RuleHead {
        name: Word {
            name: name.as_str(),
            span,
        },
        action_type: None,
    };
    let body = Body {
        symbols: &[],
        precedences: &[],
        action: symbols.code(code),
        span: Span::new(span.start(), span.start()),
    };
    builder.add_production(symbols.alloc, head, body)
}

/// Adds the rules of a production's actions.
#[tactic(auto, unfolding(cfgitems::specs::Building::adds), using(crate::proofs::Adds::adds_append))]
fn add_inners(
    symbols: Symbols<'_>,
    builder: &mut AstBuilder,
    pieces: &[Piece],
) -> Result<(), AllocError>
    ensures { OnOk result (syntax_built builder.new ≡ adds (syntax_built builder.old)
        (filter_map (inner_production (words_in symbols.entry)) pieces.now)) }
{
    for piece in pieces {
        add_inner(symbols, builder, *piece)?;
    }
    Ok(())
}

/// The span of a production.
fn span_of(symbols: Symbols<'_>, production: &Production) -> Span
    ensures { result ≡ span_of (words_in symbols.entry) (production_view production.now) }
{
    let start = symbols.span(production.start).start();
    Span::new(
        start,
        end_of(symbols.words, start, production.parts.as_slice()),
    )
}

/// Adds a production whose body has these symbols.
fn add_body(
    symbols: Symbols<'_>,
    builder: &mut AstBuilder,
    production: &Production,
    body: &[BodySymbol],
) -> Result<(), AllocError>
    ensures { OnOk result (syntax_built builder.new ≡ add (syntax_built builder.old)
        (Alternative (head_at (words_in symbols.entry) (names_in symbols.entry) (production_view production.now).rule)
        (body_with symbols.entry (map symbol_view body.now) (production_view production.now)))) }
{
    let parts = production.parts.as_slice();
    let tokens = tokens_of(symbols.alloc, body)?;
    let precedences = precedences_of(symbols, precedence_of(parts))?;
    let body = Body {
        symbols: tokens.as_slice(),
        precedences: precedences.as_slice(),
        action: symbols.code_of(action_of(parts)),
        span: span_of(symbols, production),
    };
    builder.add_production(symbols.alloc, symbols.head(production.rule), body)
}

/// Adds a production, and before it the rules of the actions inside of it. `inners` are the words of such actions so
/// far.
#[tactic(auto, unfolding(cfgitems::specs::Building::adds), using(crate::proofs::Adds::adds_append))]
pub(crate) fn add_production(
    symbols: Symbols<'_>,
    builder: &mut AstBuilder,
    inners: &mut Vec<usize>,
    production: &Production,
) -> Result<(), AllocError>
    ensures added { OnOk result (syntax_built builder.new ≡ adds (syntax_built builder.old)
        (production_items (words_in symbols.entry) (names_in symbols.entry) (is_token_in symbols.entry)
        (length inners.old.items) (production_view production.now))) }
    ensures counted { OnOk result (length inners.new.items
        ≡ inners_after (length inners.old.items) (production_view production.now).parts) }
{
    let pieces = pieces_of(symbols.alloc, inners, production.parts.as_slice())?;
    add_inners(symbols, builder, pieces.as_slice())?;
    let body = symbols_of(symbols, pieces.as_slice())?;
    add_body(symbols, builder, production, body.as_slice())
}
