//! Sets of names.

ghost use Rattle.std.specs.Prelude.{◌≡◌, map, position, OnOk};
ghost use Rattle.std.specs.Str.{bytes_eq};
ghost use Rattle.std.specs.String.{string_bytes};
ghost use Rattle.cfgitems.specs.Building.{has_name};
ghost use Rattle.bison_tree.specs.Names.{with_one};

use indexmap::IndexSet;
use std::alloc::{AllocError, Global};

/// Whether a name is in the set.
pub fn has_name(names: &IndexSet<String>, name: &str) -> bool
    ensures { result ≡ has_name name.now (map string_bytes names.now.keys) }
{
    names.contains(name)
}

/// Adds a name to the set.
///
/// # Errors
///
/// `AllocError` if an allocation fails.
pub fn add_name(alloc: Global, names: &mut IndexSet<String>, name: &str) -> Result<(), AllocError>
    ensures { OnOk result (map string_bytes names.new.keys ≡ with_one (map string_bytes names.old.keys) name.now) }
{
    names.insert(String::from_str(alloc, name)?)?;
    Ok(())
}

/// The index of a name in the set.
pub fn index_of(names: &IndexSet<String>, name: &str) -> Option<usize>
    ensures { result ≡ position (bytes_eq name.now) (map string_bytes names.now.keys) }
{
    names.get_index_of(name)
}
