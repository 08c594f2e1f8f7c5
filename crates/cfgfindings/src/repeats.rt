//! Productions with the symbols of an earlier one of their rule.

ghost use Rattle.std.specs.Prelude.{◌≡◌, ◌++◌, ◌<◌, Some, cond, length, IfOk, OnOk, unwrap_or};
ghost use Rattle.std.specs.HashMap.{get};
ghost use Rattle.cfgrammar.specs.Numbered.{core};
ghost use Rattle.cfgrammar.specs.Openings.{nth_production};
ghost use Rattle.cfgfindings.specs.contracts.repeats.ShapePartialEq.TheImpl.{ghosts as shapes};
ghost use Rattle.cfgfindings.specs.declared.repeats.Shape.{Shape};
ghost use Rattle.cfgfindings.specs.Findings.{ReportsBelow, ReportsRepeated};
ghost use Rattle.cfgfindings.specs.Inner.FirstProductions.{AreFirsts, production_of};
ghost use Rattle.cfgfindings.specs.Shown.{repeated, rule_name};

use cfgrammar::laws::symbols_are_their_indices;
use cfgrammar::storage::to_storage;
use cfgrammar::yacc::YaccGrammar;
use cfgrammar::{PIdx, Symbol};
use std::alloc::{AllocError, Global};
use std::collections::HashMap;
use text_findings::{Finding, FindingKind, Reporter, push_reported};

/// Adds the productions with the symbols of an earlier one of their rule to the findings.
///
/// # Errors
///
/// Out of memory.
pub(crate) fn push_repeats(
    alloc: Global,
    all: &mut Vec<Finding>,
    grammar: &YaccGrammar<u32>,
) -> Result<(), AllocError>
    ensures { OnOk result ((reported : _)
        × ReportsBelow (ReportsRepeated grammar.now) grammar.now.start_production reported
        × (all.new.items ≡ all.old.items ++ reported)) }
{
    let firsts = firsts_of(alloc, grammar)?;
    let repeats = Repeats { grammar, firsts };
    push_reported(alloc, all, &repeats, usize::from(grammar.start_prod()))
}

/// Reports productions with the symbols of an earlier one of their rule.
#[derive(Drop)]
struct Repeats<'a> {
    grammar: &'a YaccGrammar<u32>,
    /// For each production of the file, the first one of its rule with its symbols.
    firsts: Vec<usize>,
}

impl Reporter for Repeats<'_> {
    ghost use Rattle.cfgrammar.specs.Numbered.{core};
    ghost use Rattle.cfgfindings.specs.Findings.{ReportsRepeated};
    ghost use Rattle.cfgfindings.specs.Inner.FirstProductions.{AreFirsts};

    ghost count = { λ x. x.grammar.now.start_production };

    ghost reports = { λ x n reported. AreFirsts (core x.grammar.now) x.grammar.now.start_production x.firsts.items
        → ReportsRepeated x.grammar.now n reported };

    fn report(&self, alloc: Global, number: usize) -> Result<Option<Finding>, AllocError> {
        match self.firsts.get(number) {
            Some(first) if *first < number => {
                Ok(Some(repeated(alloc, self.grammar, number, *first)?))
            }
            _ => Ok(None),
        }
    }
}

/// The finding that the production has the symbols of an earlier one of its rule.
fn repeated(
    alloc: Global,
    grammar: &YaccGrammar<u32>,
    number: usize,
    earlier: usize,
) -> Result<Finding, AllocError>
    requires within { number < grammar.now.start_production }
    requires before { earlier < number }
    ensures { IfOk result (λ x. x ≡ repeated grammar.now number earlier) }
{
    grammar.invariant_holds();
    let span = grammar.prod_span(PIdx(to_storage(number)));
    let earlier_span = grammar.prod_span(PIdx(to_storage(earlier)));
    let name = owner_name(grammar, number);
    let text = format!(in alloc;
        "Repeated production of rule '{name}': each sentence by it has two trees"
    )?;
    Finding::at_both(
        alloc,
        FindingKind::RepeatedProduction,
        span,
        earlier_span,
        text,
    )
}

/// The name of the production's rule.
fn owner_name(grammar: &YaccGrammar<u32>, number: usize) -> &str
    requires { number < length grammar.now.productions }
    ensures { result.now ≡ rule_name grammar.now (nth_production (core grammar.now) number).rule }
{
    grammar.invariant_holds();
    grammar.rule_name_str(grammar.prod_to_rule(PIdx(to_storage(number))))
}

/// The rule and the symbols of a production.
#[derive(PartialEq, Eq, Hash, Drop)]
struct Shape<'a> {
    rule: u32,
    symbols: &'a [Symbol<u32>],
}

/// For each production of the file, the first one of its rule with its symbols.
fn firsts_of(alloc: Global, grammar: &YaccGrammar<u32>) -> Result<Vec<usize>, AllocError>
    ensures { IfOk result (λ x. AreFirsts (core grammar.now) grammar.now.start_production x.items) }
{
    symbols_are_their_indices::<u32>();
    let count = usize::from(grammar.start_prod());
    let mut firsts = Vec::with_capacity(alloc, count)?;
    let mut known = HashMap::with_capacity(alloc, count)?;
    for number in 0..count {
        let shape = shape_of(grammar, number);
        firsts.push(first_known(&mut known, shape, number)?)?;
    }
    Ok(firsts)
}

/// The number recorded for the shape; if there is none, records this one.
fn first_known<'a>(
    known: &mut HashMap<Shape<'a>, usize>,
    shape: Shape<'a>,
    number: usize,
) -> Result<usize, AllocError>
    ensures first { IfOk result (λ first. first ≡ unwrap_or (get shapes.eq known.old shape.entry) number) }
    ensures known { IfOk result (λ first. (other : Shape) → get shapes.eq known.new other
        ≡ cond (shapes.eq shape.entry other) (Some first) (get shapes.eq known.old other)) }
{
    Ok(*known.entry(shape)?.or_insert(number))
}

/// The shape of a production.
fn shape_of(grammar: &YaccGrammar<u32>, number: usize) -> Shape<'_>
    requires { number < length grammar.now.productions }
    ensures { production_of result ≡ nth_production (core grammar.now) number }
{
    grammar.invariant_holds();
    let production = PIdx(to_storage(number));
    Shape {
        rule: u32::from(grammar.prod_to_rule(production)),
        symbols: grammar.prod(production),
    }
}
