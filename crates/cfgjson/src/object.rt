//! Members of JSON objects.

ghost use Rattle.std.specs.Prelude.{◌≡◌, IfOk, OnOk};
ghost use Rattle.serde_json.specs.Data.{member, no_members, object, put, string};
ghost use Rattle.serde_json.specs.View.{members_view, view};
ghost use Rattle.cfgjson.specs.Objects.{count};

use serde_json::{Map, ToValue, Value, put};
use std::alloc::{AllocError, Global};

/// Adds a member that is a text.
pub(crate) fn put_text(
    alloc: Global,
    members: &mut Map<String, Value>,
    name: &str,
    text: &str,
) -> Result<(), AllocError>
    ensures { OnOk result (members_view members.new.entries
        ≡ put name.now (string text.now) (members_view members.old.entries)) }
{
    put(members, alloc, name, text.to_value(alloc)?)
}

/// Adds a member that is a number.
pub(crate) fn put_count(
    alloc: Global,
    members: &mut Map<String, Value>,
    name: &str,
    number: usize,
) -> Result<(), AllocError>
    ensures { OnOk result (members_view members.new.entries
        ≡ put name.now (count number) (members_view members.old.entries)) }
{
    put(members, alloc, name, Value::from(number))
}

/// The object with this member alone.
pub(crate) fn object_with(alloc: Global, name: &str, value: Value) -> Result<Value, AllocError>
    ensures { IfOk result (λ made. view made ≡ object (member name.now (view value) no_members)) }
{
    let mut members = Map::new(alloc);
    put(&mut members, alloc, name, value)?;
    Ok(Value::Object(members))
}
