//! Writing to an existing tree.

ghost use Rattle.std.specs.Prelude.{◌≡◌, ◌<◌, ℕ, List, false, length, map, option_map, string_bytes, IsSome, IfOk};
ghost use Rattle.std.specs.Prelude.{OnErr, OnOk};
ghost use Rattle.std.specs.Vec.{vec_len, vec_capacity};
ghost use Rattle.std.specs.Map.{lookup};
ghost use Rattle.std.specs.Str.{bytes_eq};
ghost use Rattle.cfgitems.specs.Items.{Item, RuleHead};
ghost use Rattle.cfgitems.specs.Syntax.{Syntax, syntax_of};
ghost use Rattle.cfgitems.specs.Building.{has_rule, listed};
ghost use Rattle.cfgast.specs.WellFormed.{IsWellFormed};
ghost use Rattle.cfgitems.specs.SyntaxView.{named_view, rule_entry, symbol_view, text_view};
ghost use Rattle.cfgast.specs.TreeView.{syntax};
ghost use Rattle.cfgast.specs.Writing.{rule_added, production_added, programs_set, started_at, IsTree};
ghost use Rattle.cfgast.specs.Writing.{ProductionsKeepTrees};

use crate::ast::GrammarAST;
use cfgbase::Span;
use cfgitems::rule::list_production;
use cfgitems::{Production, Rule, Symbol};
use std::alloc::AllocError;

#[tactic(auto, unfolding(crate::specs::TreeView::syntax, cfgitems::specs::SyntaxView::syntax_view))]
impl GrammarAST {
    /// Adds a rule that has no productions yet, with its name's span and the type that its actions return.
    ///
    /// A rule with the same name keeps its index among the rules. It gets the span and the type, and its list of
    /// productions is emptied; they stay among the productions of all rules.
    ///
    /// # Errors
    ///
    /// Running out of memory for a rule with a new name. The tree is as it was.
    pub fn add_rule(
        &mut self,
        name: (String, Span),
        actiont: Option<String>,
    ) -> Result<(), AllocError>
        ensures added { OnOk result (syntax self.new ≡ rule_added (syntax self.old) (record {
          name = named_view name;
          action_type = option_map string_bytes actiont;
        })) }
        ensures there { OnOk result (IsSome (lookup (bytes_eq (string_bytes name.0)) (syntax self.new).rules)) }
        ensures unchanged { OnErr result (syntax self.new ≡ syntax self.old) }
        ensures memory { OnErr result (has_rule (string_bytes name.0) (syntax self.old).rules ≡ false) }
    {
        let pidxs = Vec::new(*name.0.allocator());
        let rule = Rule {
            name,
            pidxs,
            actiont,
        };
        if let Some(known) = self.syntax.rules.get_mut(rule.name.0.as_str()) {
            *known = rule;
            return Ok(());
        }
        let key = rule.name.0.clone()?;
        self.syntax.rules.insert(key, rule)?;
        Ok(())
    }

    /// Adds a production, as the last one of all and of the rule with this name, which exists.
    ///
    /// # Errors
    ///
    /// Running out of memory for it. The tree is as it was.
    pub fn add_prod(
        &mut self,
        rule: String,
        symbols: Vec<Symbol>,
        precedence: Option<String>,
        action: Option<(String, Span)>,
        prod_span: Span,
    ) -> Result<(), AllocError>
        requires { IsSome (lookup (bytes_eq (string_bytes rule)) (syntax self.old).rules) }
        ensures added { OnOk result (syntax self.new
            ≡ production_added (syntax self.old) (string_bytes rule) (record {
              symbols = map symbol_view symbols.items;
              precedence = option_map string_bytes precedence;
              action = option_map text_view action;
              span = prod_span;
            })) }
        ensures unchanged { OnErr result (syntax self.new ≡ syntax self.old) }
    {
        let name = rule.as_str();
        let Some(index) = self.syntax.rules.get_index_of(name) else {
            return Ok(());
        };
        self.list_next(name)?;
        self.syntax.prods_rules.push_reserved(index);
        self.syntax.prods.push_reserved(Production {
            symbols,
            precedence,
            action,
            prod_span,
        });
        Ok(())
    }

    // Makes room for another production, and lists it with the rule of this name.
    fn list_next(&mut self, name: &str) -> Result<(), AllocError>
        ensures listed { OnOk result (syntax self.new ≡ record (syntax self.old) {
          rules = map (listed name.now (length (syntax self.old).productions)) (syntax self.old).rules;
        }) }
        ensures room { OnOk result ((vec_len self.new.syntax.prods < vec_capacity self.new.syntax.prods)
            × (vec_len self.new.syntax.prods_rules < vec_capacity self.new.syntax.prods_rules)) }
        ensures unchanged { OnErr result (syntax self.new ≡ syntax self.old) }
    {
        let at = self.syntax.prods.len();
        self.syntax.prods.reserve(1)?;
        self.syntax.prods_rules.reserve(1)?;
        list_production(&mut self.syntax.rules, name, at)
    }

    /// Sets the text of the programs part, replacing the old one.
    pub fn set_programs(&mut self, programs: String)
        ensures { syntax self.new ≡ programs_set (syntax self.old) (string_bytes programs) }
    {
        self.syntax.settings.programs = Some(programs);
    }

    /// The older name of [`set_programs`](GrammarAST::set_programs).
    pub fn add_programs(&mut self, programs: String)
        ensures { syntax self.new ≡ programs_set (syntax self.old) (string_bytes programs) }
    {
        self.set_programs(programs);
    }
}

/// A copy of the tree with another start. No public path of `cfgrammar` leads to it.
///
/// # Errors
///
/// Running out of memory for the copy.
pub fn clone_with_start(ast: &GrammarAST, start: (String, Span)) -> Result<GrammarAST, AllocError>
    ensures { IfOk result (λ copy. syntax copy ≡ started_at (syntax ast.now) (named_view start)) }
{
    let mut copy = ast.clone()?;
    copy.syntax.start = Some(start);
    Ok(copy)
}

/// The law of the trees of grammar files: what a list of items says is well formed.
pub fn syntax_is_well_formed()
    ensures { (items : List Item) → IsWellFormed (syntax_of items) }
{}

/// The law of trees that are written to: what is well formed is a tree, and writing to a tree gives a tree.
pub fn written_is_tree()
    ensures read { (s : Syntax) → IsWellFormed s → IsTree s }
    ensures rule { (s : Syntax) (head : RuleHead) → IsTree s → IsTree (rule_added s head) }
    ensures production { ProductionsKeepTrees }
    ensures programs { (s : Syntax) (text : List ℕ) → IsTree s → IsTree (programs_set s text) }
{}
