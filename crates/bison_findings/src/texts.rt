//! The texts of findings about conflicts.

ghost use Rattle.std.specs.Prelude.{◌≡◌, ◌++◌, ◌∷◌, All, Contains, IfOk, None, OnOk, map, string_bytes};
ghost use Rattle.cfgrammar.specs.Accessors.{IsSymbolWithin};
ghost use Rattle.cfgrammar.specs.NumberedSymbols.{sym_of};
ghost use Rattle.bison_findings.specs.Inner.Within.{IsWithin};
ghost use Rattle.bison_findings.specs.Shown.{after_text, clash_finding, clash_kind, clash_spans, clash_title};
ghost use Rattle.bison_findings.specs.Shown.{other_text, read_symbols, tokens_text};
ghost use Rattle.lr_conflicts.specs.declared.clashes.Clash.{Clash};

use crate::symbols::{write_item, write_production, write_symbols, write_token};
use cfgrammar::storage::to_storage;
use cfgrammar::yacc::YaccGrammar;
use cfgrammar::{PIdx, Span, Symbol};
use lr_conflicts::Clash;
use lr_states::tables::symbols_of;
use std::alloc::{AllocError, Global};
use text_findings::{Finding, FindingKind};

/// The finding that these clash, which are the same but for the token, without a note.
pub(crate) fn clash_finding(
    alloc: Global,
    grammar: &YaccGrammar<u32>,
    first: Clash,
    same: &[Clash],
) -> Result<Finding, AllocError>
    requires first { IsWithin grammar.now first }
    requires same { (clash : Clash) → Contains same.now clash → IsWithin grammar.now clash }
    ensures { IfOk result (λ finding. finding
        ≡ clash_finding grammar.now first (map (λ clash. clash.token) (first ∷ same.now)) None) }
{
    let mut text = String::from_str(alloc, title_of(first))?;
    write_tokens(&mut text, grammar, first, same)?;
    text.push_str(": ")?;
    write_after(&mut text, grammar, read_symbols(grammar, first))?;
    text.push_str("it may be reduced by  ")?;
    write_production(&mut text, grammar, first.production)?;
    text.push_str("  or ")?;
    write_other(&mut text, grammar, first)?;
    Ok(Finding::new(kind_of(first), clash_spans(alloc, grammar, first)?, text))
}

fn kind_of(clash: Clash) -> FindingKind
    ensures { result ≡ clash_kind clash }
{
    if clash.shifts {
        FindingKind::ShiftReduce
    } else {
        FindingKind::ReduceReduce
    }
}

fn title_of(clash: Clash) -> &'static str
    ensures { result.now ≡ clash_title clash }
{
    if clash.shifts {
        "Shift/reduce conflict at "
    } else {
        "Reduce/reduce conflict at "
    }
}

/// The production's span, and the other one's, if it is another one of the file.
fn clash_spans(
    alloc: Global,
    grammar: &YaccGrammar<u32>,
    clash: Clash,
) -> Result<Vec<Span>, AllocError>
    requires { IsWithin grammar.now clash }
    ensures { IfOk result (λ spans. spans.items ≡ clash_spans grammar.now clash) }
{
    grammar.invariant_holds();
    let other = clash.other.production;
    let mut spans = Vec::new(alloc);
    spans.push(grammar.prod_span(PIdx(to_storage(clash.production))))?;
    if other != clash.production && other != usize::from(grammar.start_prod()) {
        spans.push(grammar.prod_span(PIdx(to_storage(other))))?;
    }
    Ok(spans)
}

/// What was certainly read: of what the two have read, the longer one.
fn read_symbols(grammar: &YaccGrammar<u32>, clash: Clash) -> &[Symbol<u32>]
    requires { IsWithin grammar.now clash }
    ensures symbols { map (sym_of (λ s. s)) result.now ≡ read_symbols grammar.now clash }
    ensures within { All (IsSymbolWithin (λ s. s) grammar.now) result.now }
{
    let own = symbols_of(grammar, clash.production);
    let other = &symbols_of(grammar, clash.other.production)[..clash.other.read];
    if own.len() < other.len() { other } else { own }
}

/// Writes the tokens of the clashes.
fn write_tokens(
    text: &mut String,
    grammar: &YaccGrammar<u32>,
    first: Clash,
    same: &[Clash],
) -> Result<(), AllocError>
    requires first { IsWithin grammar.now first }
    requires same { (clash : Clash) → Contains same.now clash → IsWithin grammar.now clash }
    ensures { OnOk result (string_bytes text.new ≡ string_bytes text.old
        ++ tokens_text grammar.now (map (λ clash. clash.token) (first ∷ same.now))) }
{
    write_token(text, grammar, first.token)?;
    for clash in same {
        text.push_str(", ")?;
        write_token(text, grammar, clash.token)?;
    }
    Ok(())
}

/// Writes what was read, if anything was.
fn write_after(
    text: &mut String,
    grammar: &YaccGrammar<u32>,
    symbols: &[Symbol<u32>],
) -> Result<(), AllocError>
    requires { All (IsSymbolWithin (λ s. s) grammar.now) symbols.now }
    ensures { OnOk result (string_bytes text.new
        ≡ string_bytes text.old ++ after_text grammar.now (map (sym_of (λ s. s)) symbols.now)) }
{
    if symbols.is_empty() {
        return Ok(());
    }
    text.push_str("after ")?;
    write_symbols(text, grammar, symbols)?;
    text.push_str("  ")
}

/// Writes what else may be done.
fn write_other(
    text: &mut String,
    grammar: &YaccGrammar<u32>,
    clash: Clash,
) -> Result<(), AllocError>
    requires { IsWithin grammar.now clash }
    ensures { OnOk result (string_bytes text.new ≡ string_bytes text.old ++ other_text grammar.now clash) }
{
    if !clash.shifts {
        text.push_str("by  ")?;
        return write_production(text, grammar, clash.other.production);
    }
    if clash.other.production == usize::from(grammar.start_prod()) {
        return text.push_str("accepted");
    }
    text.push_str("go on with  ")?;
    write_item(text, grammar, clash.other)
}
