//! The rows of tokens.

ghost use Rattle.std.specs.Prelude.{◌≡◌, ◌∷◌, ◌++◌, [], false, map, IfOk, OnOk};
ghost use Rattle.std.specs.List.{list_any, zip};
ghost use Rattle.std.specs.Str.{bytes_eq};
ghost use Rattle.cfgast.specs.WellFormed.{IsWellFormed};
ghost use Rattle.cfgnumbers.specs.Numbered.{file_token};
ghost use Rattle.cfgnumbers.specs.TablesView.{names, file_of, token_view};

use super::Numbering;
use super::marks::{avoids_insert, precedence_of_token, printed_form};
use crate::rows::TokenRow;
use cfgbase::Span;
use indexmap::IndexMap;
use std::alloc::{AllocError, Global};

impl Numbering<'_> {
    /// The tokens that have a name.
    ///
    /// # Errors
    ///
    /// Out of memory.
    pub fn token_rows(&self, alloc: Global) -> Result<IndexMap<String, TokenRow>, AllocError>
        requires well_formed { IsWellFormed (file_of self.now) }
        ensures { IfOk result (λ rows. map token_view rows.entries
            ≡ map (file_token (file_of self.now)) (zip (file_of self.now).tokens (file_of self.now).spans)) }
    {
        let mut rows = IndexMap::with_capacity(alloc, self.ast.tokens().len())?;
        for (name, span) in self.ast.tokens().iter().zip(self.ast.spans()) {
            self.put_token(alloc, &mut rows, name.as_str(), *span)?;
        }
        Ok(rows)
    }

    /// Adds a token to the rows.
    fn put_token(
        &self,
        alloc: Global,
        rows: &mut IndexMap<String, TokenRow>,
        name: &str,
        span: Span,
    ) -> Result<(), AllocError>
        requires { list_any (bytes_eq name.now) (names rows.old.entries) ≡ false }
        ensures { OnOk result (map token_view rows.new.entries
            ≡ map token_view rows.old.entries ++ file_token (file_of self.now) (name.now, span) ∷ []) }
    {
        let row = TokenRow {
            span,
            precedence: precedence_of_token(self.ast, name),
            printed: printed_form(self.ast, name)?,
            avoid_insert: avoids_insert(self.ast, name),
        };
        rows.insert(String::from_str(alloc, name)?, row)?;
        Ok(())
    }
}
