//! The states of a grammar's parser as text.

ghost use Rattle.std.specs.Prelude.{◌≡◌, ◌++◌, ◌<◌, ◌+◌, [], Contains, IfOk, OnOk, codes, get_or, length, string_bytes};
ghost use Rattle.std.specs.List.{flat_map};
ghost use Rattle.bison_findings.specs.Inner.Within.{AreWithin, IsItem};
ghost use Rattle.bison_findings.specs.Shown.{tokens_text};
ghost use Rattle.bison_findings.specs.States.{IsStatesText, action_line, action_text, conflict_line, is_shown};
ghost use Rattle.bison_findings.specs.States.{item_line, state_text, states_text, symbol_text, target_line};
ghost use Rattle.bison_findings.specs.States.{tokens_in};
ghost use Rattle.lr_conflicts.specs.declared.Conflict.{Conflict};
ghost use Rattle.lr_states.specs.declared.Item.{Item};
ghost use Rattle.lr_states.specs.declared.kernels.Target.{Target};

use crate::symbols::{write_item, write_production, write_token};
use cfgrammar::bison::Associativity;
use cfgrammar::storage::to_storage;
use cfgrammar::yacc::YaccGrammar;
use cfgrammar::{RIdx, Visible, Vob};
use lr_conflicts::{Conflict, Conflicts};
use lr_states::lookaheads::Lookaheads;
use lr_states::tables::symbols_of;
use lr_states::{Item, Target};
use std::alloc::{AllocError, Global};

/// The states of a grammar's parser, for reading a conflict by hand: for each state its items, where symbols lead from
/// it, and at which tokens it reduces, all before precedence settles anything; and the tokens of the conflicts that are
/// left after that. `associativities` says how the operators of each level of precedences associate, as for
/// `push_conflicts`.
///
/// # Errors
///
/// Out of memory.
pub fn states_text(
    alloc: Global,
    grammar: &YaccGrammar<u32>,
    associativities: &[Associativity],
) -> Result<String, AllocError>
    ensures { IfOk result (λ text. IsStatesText grammar.now associativities.now (string_bytes text)) }
{
    let conflicts = Conflicts::of(alloc, grammar, associativities)?;
    let mut text = String::new(alloc);
    write_states(&mut text, grammar, &conflicts)?;
    Ok(text)
}

fn write_states(
    text: &mut String,
    grammar: &YaccGrammar<u32>,
    conflicts: &Conflicts,
) -> Result<(), AllocError>
    requires { AreWithin grammar.now conflicts.now }
    ensures { OnOk result (string_bytes text.new ≡ string_bytes text.old ++ states_text grammar.now conflicts.now) }
{
    let states = conflicts.lookaheads().states();
    for state in 0..states.len() {
        write_state(text, grammar, conflicts, state)?;
    }
    Ok(())
}

fn write_state(
    text: &mut String,
    grammar: &YaccGrammar<u32>,
    conflicts: &Conflicts,
    state: usize,
) -> Result<(), AllocError>
    requires within { AreWithin grammar.now conflicts.now }
    requires state { state < length conflicts.now.lookaheads.automaton.states }
    ensures { OnOk result (string_bytes text.new
        ≡ string_bytes text.old ++ state_text grammar.now conflicts.now state) }
{
    let states = conflicts.lookaheads().states();
    writeln!(text, "State {state}")?;
    write_items(text, grammar, states.items(state))?;
    write_targets(text, grammar, states.targets(state))?;
    write_actions(text, grammar, conflicts, state)?;
    write_conflicts(text, grammar, conflicts, state)
}

fn write_items(
    text: &mut String,
    grammar: &YaccGrammar<u32>,
    items: &[Item],
) -> Result<(), AllocError>
    requires { (item : Item) → Contains items.now item → IsItem grammar.now item }
    ensures { OnOk result (string_bytes text.new
        ≡ string_bytes text.old ++ flat_map (item_line grammar.now) items.now) }
{
    for item in items {
        write_item_line(text, grammar, *item)?;
    }
    Ok(())
}

fn write_item_line(
    text: &mut String,
    grammar: &YaccGrammar<u32>,
    item: Item,
) -> Result<(), AllocError>
    requires { IsItem grammar.now item }
    ensures { OnOk result (string_bytes text.new ≡ string_bytes text.old ++ item_line grammar.now item) }
{
    if !is_shown(grammar, item) {
        return Ok(());
    }
    text.push_str("  ")?;
    write_item(text, grammar, item)?;
    text.push_str("\n")
}

/// Whether the item is shown: those of which nothing is read follow from the others, but for the start rule's and those
/// that are reduced.
fn is_shown(grammar: &YaccGrammar<u32>, item: Item) -> bool
    requires { item.production < length grammar.now.productions }
    ensures { result ≡ is_shown grammar.now item }
{
    item.read > 0
        || item.production == usize::from(grammar.start_prod())
        || symbols_of(grammar, item.production).is_empty()
}

fn write_targets(
    text: &mut String,
    grammar: &YaccGrammar<u32>,
    targets: &[Target],
) -> Result<(), AllocError>
    requires { (target : Target) → Contains targets.now target
        → target.symbol < length grammar.now.rules + length grammar.now.tokens }
    ensures { OnOk result (string_bytes text.new
        ≡ string_bytes text.old ++ flat_map (target_line grammar.now) targets.now) }
{
    for target in targets {
        write_target(text, grammar, *target)?;
    }
    Ok(())
}

fn write_target(
    text: &mut String,
    grammar: &YaccGrammar<u32>,
    target: Target,
) -> Result<(), AllocError>
    requires { target.symbol < length grammar.now.rules + length grammar.now.tokens }
    ensures { OnOk result (string_bytes text.new ≡ string_bytes text.old ++ target_line grammar.now target) }
{
    text.push_str("    ")?;
    write_symbol(text, grammar, target.symbol)?;
    writeln!(text, ": go to state {}", target.state)
}

/// Writes the symbol with this number: the rules have the first ones, and then come those of the tokens.
fn write_symbol(
    text: &mut String,
    grammar: &YaccGrammar<u32>,
    number: usize,
) -> Result<(), AllocError>
    requires { number < length grammar.now.rules + length grammar.now.tokens }
    ensures { OnOk result (string_bytes text.new ≡ string_bytes text.old ++ symbol_text grammar.now number) }
{
    grammar.invariant_holds();
    let rules = usize::from(grammar.rules_len());
    if number < rules {
        let name = grammar.rule_name_str(RIdx(to_storage(number)));
        return write!(text, "after {}", Visible(name));
    }
    text.push_str("at ")?;
    write_token(text, grammar, number - rules)
}

fn write_actions(
    text: &mut String,
    grammar: &YaccGrammar<u32>,
    conflicts: &Conflicts,
    state: usize,
) -> Result<(), AllocError>
    requires within { AreWithin grammar.now conflicts.now }
    requires state { state < length conflicts.now.lookaheads.automaton.states }
    ensures { OnOk result (string_bytes text.new ≡ string_bytes text.old ++ flat_map
        (action_line grammar.now conflicts.now state) (get_or conflicts.now.lookaheads.automaton.states state [])) }
{
    let items = conflicts.lookaheads().states().items(state);
    for item in items {
        write_action(text, grammar, conflicts, state, *item)?;
    }
    Ok(())
}

/// Writes at which tokens the item is reduced, if all of it is read.
fn write_action(
    text: &mut String,
    grammar: &YaccGrammar<u32>,
    conflicts: &Conflicts,
    state: usize,
    item: Item,
) -> Result<(), AllocError>
    requires within { IsItem grammar.now item }
    requires state { state < length conflicts.now.lookaheads.automaton.states }
    requires item { Contains (get_or conflicts.now.lookaheads.automaton.states state []) item }
    ensures { OnOk result (string_bytes text.new
        ≡ string_bytes text.old ++ action_line grammar.now conflicts.now state item) }
{
    if item.read != symbols_of(grammar, item.production).len() {
        return Ok(());
    }
    let bits = conflicts.lookaheads().tokens(state, item).unwrap();
    text.push_str("    at ")?;
    write_tokens_in(text, grammar, bits)?;
    text.push_str(": ")?;
    write_reduction(text, grammar, item.production)?;
    text.push_str("\n")
}

/// Writes the tokens whose bits are on.
fn write_tokens_in(
    text: &mut String,
    grammar: &YaccGrammar<u32>,
    bits: &Vob,
) -> Result<(), AllocError>
    ensures { OnOk result (string_bytes text.new
        ≡ string_bytes text.old ++ tokens_text grammar.now (tokens_in grammar.now bits.now)) }
{
    let mut separator = "";
    for token in 0..usize::from(grammar.tokens_len()) {
        if bits.get(token).unwrap_or(false) {
            text.push_str(separator)?;
            write_token(text, grammar, token)?;
            separator = ", ";
        }
    }
    Ok(())
}

fn write_reduction(
    text: &mut String,
    grammar: &YaccGrammar<u32>,
    production: usize,
) -> Result<(), AllocError>
    requires { production < length grammar.now.productions }
    ensures { OnOk result (string_bytes text.new ≡ string_bytes text.old ++ action_text grammar.now production) }
{
    if production == usize::from(grammar.start_prod()) {
        return text.push_str("accept");
    }
    text.push_str("reduce  ")?;
    write_production(text, grammar, production)
}

/// Writes the conflicts of the state.
fn write_conflicts(
    text: &mut String,
    grammar: &YaccGrammar<u32>,
    conflicts: &Conflicts,
    state: usize,
) -> Result<(), AllocError>
    requires { AreWithin grammar.now conflicts.now }
    ensures { OnOk result (string_bytes text.new
        ≡ string_bytes text.old ++ flat_map (conflict_line grammar.now state) conflicts.now.conflicts) }
{
    for conflict in conflicts.as_slice() {
        write_conflict(text, grammar, conflict, state)?;
    }
    Ok(())
}

fn write_conflict(
    text: &mut String,
    grammar: &YaccGrammar<u32>,
    conflict: &Conflict,
    state: usize,
) -> Result<(), AllocError>
    requires { conflict.now.token < length grammar.now.tokens }
    ensures { OnOk result (string_bytes text.new
        ≡ string_bytes text.old ++ conflict_line grammar.now state conflict.now) }
{
    if conflict.state != state {
        return Ok(());
    }
    text.push_str("    conflict at ")?;
    write_token(text, grammar, conflict.token)?;
    text.push_str("\n")
}
