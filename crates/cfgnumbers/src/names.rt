//! The tokens of a grammar, by name.

ghost use Rattle.std.specs.Prelude.{◌≡◌, ◌≤◌, ℕ, List, None, length, position, option_map, IfOk, OnOk};
ghost use Rattle.std.specs.HashMap.{get_by};
ghost use Rattle.std.specs.Str.{bytes_eq};
ghost use Rattle.cfgnumbers.specs.TablesView.{names};

use crate::rows::TokenRow;
use cfgindex::{Storage, TIdx, to_storage};
use indexmap::IndexMap;
use std::alloc::{AllocError, Global};
use std::collections::HashMap;

/// The tokens of these rows, by name.
///
/// # Errors
///
/// Out of memory.
pub fn tokens_by_name<S: Storage>(
    alloc: Global,
    rows: &IndexMap<String, TokenRow>,
) -> Result<HashMap<&str, TIdx<S>>, AllocError>
    requires { length rows.now.entries ≤ S.MAX }
    ensures { IfOk result (λ map. (name : List ℕ)
        → option_map (λ x. S.number x.0) (get_by (λ key. bytes_eq name key.now) map)
        ≡ position (bytes_eq name) (names rows.now.entries)) }
{
    let mut map = HashMap::with_capacity(alloc, rows.len())?;
    put_names(&mut map, rows)?;
    Ok(map)
}

/// Inserts the tokens of these rows into an empty map, by name.
fn put_names<'rows, S: Storage>(
    map: &mut HashMap<&'rows str, TIdx<S>>,
    rows: &'rows IndexMap<String, TokenRow>,
) -> Result<(), AllocError>
    requires empty { (name : List ℕ) → get_by (λ key. bytes_eq name key.now) map.old ≡ None }
    requires room { length rows.now.entries ≤ S.MAX }
    ensures { OnOk result ((name : List ℕ)
        → option_map (λ x. S.number x.0) (get_by (λ key. bytes_eq name key.now) map.new)
        ≡ position (bytes_eq name) (names rows.now.entries)) }
{
    for index in 0..rows.len() {
        let (name, _) = rows.get_index(index).unwrap();
        map.insert(name.as_str(), TIdx(to_storage(index)))?;
    }
    Ok(())
}
