//! Strings that are other names of tokens.

ghost use Rattle.std.specs.Prelude.{◌≡◌, [], map, fold, filter_map, IfOk, OnOk};
ghost use Rattle.std.specs.List.{list_any};
ghost use Rattle.std.specs.Str.{bytes_eq};
ghost use Rattle.std.specs.String.{string_bytes};
ghost use Rattle.cfgitems.specs.Building.{has_entry};
ghost use Rattle.bison_reader.specs.Items.{item_view};
ghost use Rattle.bison_words.specs.Words.{word_view};
ghost use Rattle.bison_tree.specs.Inner.Views.{IsConsistent, aliases_view};
ghost use Rattle.bison_tree.specs.Names.{alias_in, aliases_of, built_in, called, is_taken, name_at, names_of};
ghost use Rattle.bison_tree.specs.Names.{with_alias};

use crate::names::own_names;
use crate::sets::{add_name, has_name};
use bison_reader::Item;
use bison_words::Word;
use indexmap::{IndexMap, IndexSet};
use std::alloc::{AllocError, Global};

/// Strings that are other names of tokens, each with its token, and these tokens.
#[derive(Drop)]
pub(crate) struct Aliases {
    of_strings: IndexMap<String, String>,
    tokens: IndexSet<String>,
}

/// The name of a word by its number; an empty one, if there is no such word.
pub fn name_at<'a>(names: &'a [String], word: usize) -> &'a str
    ensures { result.now ≡ name_at (map string_bytes names.now) word }
{
    match names.get(word) {
        Some(name) => name.as_str(),
        None => "",
    }
}

impl Aliases {
    fn none(alloc: Global) -> Self
        ensures none { aliases_view result ≡ [] }
        ensures consistent { IsConsistent result }
    {
        Aliases {
            of_strings: IndexMap::new(alloc),
            tokens: IndexSet::new(alloc),
        }
    }

    /// Those that need no declaration.
    fn built_in(alloc: Global) -> Result<Self, AllocError>
        ensures built_in { IfOk result (λ aliases. aliases_view aliases ≡ built_in) }
        ensures consistent { IfOk result IsConsistent }
    {
        let mut aliases = Aliases::none(alloc);
        aliases.give(alloc, "YYerror", "error")?;
        aliases.give(alloc, "$undefined", "YYUNDEF")?;
        Ok(aliases)
    }

    /// Whether this is another name of a token.
    fn has(&self, name: &str) -> bool
        ensures { result ≡ has_entry name.now (aliases_view self.now) }
    {
        self.of_strings.contains_key(name)
    }

    /// Whether the token has another name.
    fn has_token(&self, token: &str) -> bool
        requires { IsConsistent self.now }
        ensures { result ≡ list_any (λ alias. bytes_eq token.now alias.1) (aliases_view self.now) }
    {
        has_name(&self.tokens, token)
    }

    /// Whether the string or the token has another name already, or the token is one.
    fn is_taken(&self, string: &str, token: &str) -> bool
        requires { IsConsistent self.now }
        ensures { result ≡ is_taken (aliases_view self.now) (string.now, token.now) }
    {
        self.has(string) || self.has(token) || self.has_token(token)
    }

    /// Makes the string another name of the token, unless one of the two has another already.
    fn give(&mut self, alloc: Global, string: &str, token: &str) -> Result<(), AllocError>
        requires { IsConsistent self.old }
        ensures given { OnOk result (aliases_view self.new
            ≡ with_alias (aliases_view self.old) (string.now, token.now)) }
        ensures consistent { OnOk result (IsConsistent self.new) }
    {
        if self.is_taken(string, token) {
            return Ok(());
        }
        add_name(alloc, &mut self.tokens, token)?;
        self.of_strings.insert(
            String::from_str(alloc, string)?,
            String::from_str(alloc, token)?,
        )?;
        Ok(())
    }

    /// Gives those of items.
    fn give_items(
        &mut self,
        alloc: Global,
        own: &[String],
        items: &[Item],
    ) -> Result<(), AllocError>
        requires { IsConsistent self.old }
        ensures { OnOk result (aliases_view self.new ≡ fold with_alias (aliases_view self.old)
            (filter_map (alias_in (map string_bytes own.now)) (map item_view items.now))) }
    {
        for item in items {
            if let Item::Alias { token, string } = item {
                self.give(alloc, name_at(own, *string), name_at(own, *token))?;
            }
        }
        Ok(())
    }

    /// What a name is called: a string that is another name of a token is called by the token's name.
    fn called<'a>(&'a self, name: &'a str) -> &'a str
        ensures { result.now ≡ called (aliases_view self.now) name.now }
    {
        match self.of_strings.get(name) {
            Some(token) => token.as_str(),
            None => name,
        }
    }
}

/// The aliases that items give.
fn aliases_of(alloc: Global, own: &[String], items: &[Item]) -> Result<Aliases, AllocError>
    ensures { IfOk result (λ aliases. aliases_view aliases
        ≡ aliases_of (map string_bytes own.now) (map item_view items.now)) }
{
    let mut aliases = Aliases::built_in(alloc)?;
    aliases.give_items(alloc, own, items)?;
    Ok(aliases)
}

/// The names of words, by the names that they have by themselves.
fn called(alloc: Global, aliases: &Aliases, own: &[String]) -> Result<Vec<String>, AllocError>
    ensures { IfOk result (λ names. map string_bytes names.items
        ≡ map (called (aliases_view aliases.now)) (map string_bytes own.now)) }
{
    let mut names = Vec::new(alloc);
    for name in own {
        names.push(String::from_str(alloc, aliases.called(name.as_str()))?)?;
    }
    Ok(names)
}

/// The name of each word.
///
/// # Errors
///
/// `AllocError` if an allocation fails.
#[tactic(auto, unfolding(crate::specs::Names::names_of))]
pub fn names_of(
    alloc: Global,
    words: &[Word<'_>],
    items: &[Item],
) -> Result<Vec<String>, AllocError>
    ensures { IfOk result (λ names. map string_bytes names.items
        ≡ names_of (map word_view words.now) (map item_view items.now)) }
{
    let own = own_names(alloc, words)?;
    let aliases = aliases_of(alloc, own.as_slice(), items)?;
    called(alloc, &aliases, own.as_slice())
}
