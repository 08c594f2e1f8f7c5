//! What a file says about single tokens.

ghost use Rattle.std.specs.Prelude.{◌≡◌, [], map, option_map, string_bytes, None, Some, OnOk};
ghost use Rattle.cfgitems.specs.Building.{with_entry, with_marked};
ghost use Rattle.cfgitems.specs.SyntaxView.{span_entry, word_view};

use crate::precedence::{AssocKind, Precedence};
use cfgbase::Span;
use cfgwords::words::Word;
use indexmap::IndexMap;
use scoped::{Refill, refilled};
use std::alloc::{AllocError, Global};

/// What a file says about single tokens, each under its name, in the order of their first occurrences.
#[derive(Debug, Drop)]
pub struct Tables {
    /// The tokens of `%left`, `%right` and `%nonassoc` lists, with their precedences (POSIX yacc) and spans.
    pub precs: IndexMap<String, (Precedence, Span)>,
    /// The keys of `%epp` with their spans, and their printed forms with theirs.
    pub epp: IndexMap<String, (Span, (String, Span))>,
    /// The tokens of `%avoid_insert` lists with their spans, if there is such a list.
    pub avoid_insert: Option<IndexMap<String, Span>>,
    /// The tokens of `%implicit_tokens` lists with their spans, if there is such a list.
    pub implicit_tokens: Option<IndexMap<String, Span>>,
    /// The declarations of precedence that ended, in order.
    pub levels: Vec<AssocKind>,
}

impl Tables {
    ghost use Rattle.cfgitems.specs.Syntax.{tables_of};
    ghost use Rattle.cfgitems.specs.SyntaxView.{tables_view};

    /// Nothing about any token.
    #[tactic(auto, unfolding(crate::specs::Syntax::tables_of))]
    pub fn none(alloc: Global) -> Self
        ensures { tables_view result ≡ tables_of [] }
    {
        Tables {
            precs: IndexMap::new(alloc),
            epp: IndexMap::new(alloc),
            avoid_insert: None,
            implicit_tokens: None,
            levels: Vec::new(alloc),
        }
    }
}

impl Clone for Tables {
    ghost use Rattle.cfgitems.specs.SyntaxView.{tables_view};

    ghost is_clone = { λ tables copy. tables_view copy ≡ tables_view tables };

    fn clone(&self) -> Result<Tables, AllocError> {
        refilled(Tables::none(*self.levels.allocator()), self)
    }
}

impl Refill for Tables {
    ghost use Rattle.cfgitems.specs.SyntaxView.{tables_view};

    ghost is_copy = { λ tables copy. tables_view copy ≡ tables_view tables };

    fn refill(&mut self, from: &Tables) -> Result<(), AllocError> {
        self.precs.clone_from(&from.precs)?;
        self.epp.clone_from(&from.epp)?;
        self.avoid_insert.clone_from(&from.avoid_insert)?;
        self.implicit_tokens.clone_from(&from.implicit_tokens)?;
        self.levels.clone_from(&from.levels)?;
        Ok(())
    }
}

// The value, under the name if no entry has it yet.
pub(crate) fn put_entry<V: Drop>(
    alloc: Global,
    entries: &mut IndexMap<String, V>,
    name: &str,
    value: V,
) -> Result<(), AllocError>
    ensures { OnOk result (map (λ entry. (string_bytes entry.0, entry.1)) entries.new.entries
        ≡ with_entry (Some (name.now, value)) (map (λ entry. (string_bytes entry.0, entry.1)) entries.old.entries)) }
{
    if !entries.contains_key(name) {
        entries.insert(String::from_str(alloc, name)?, value)?;
    }
    Ok(())
}

// The table of marked tokens, which exists once a list starts.
pub(crate) fn begin_marked(alloc: Global, table: &mut Option<IndexMap<String, Span>>)
    ensures { option_map (λ table. map span_entry table.entries) table.new
        ≡ with_marked (Some None) (option_map (λ table. map span_entry table.entries) table.old) }
{
    if table.is_none() {
        *table = Some(IndexMap::new(alloc));
    }
}

// The table of marked tokens, with a token of a list.
pub(crate) fn put_marked(
    alloc: Global,
    table: &mut Option<IndexMap<String, Span>>,
    word: Word<'_>,
) -> Result<(), AllocError>
    ensures { OnOk result (option_map (λ table. map span_entry table.entries) table.new
        ≡ with_marked (Some (Some (word_view word.entry)))
        (option_map (λ table. map span_entry table.entries) table.old)) }
{
    begin_marked(alloc, table);
    match table {
        Some(entries) => put_entry(alloc, entries, word.name, word.span),
        None => Ok(()),
    }
}
