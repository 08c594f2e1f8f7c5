//! Kinds of Yacc from values, and values from kinds.

ghost use Rattle.std.specs.Prelude.{◌≡◌, map, is_some, string_bytes, codes, Ok, Some, IfOk, IfErr};
ghost use Rattle.std.specs.Option.{option_copied};
ghost use Rattle.std.specs.Str.{bytes_eq};
ghost use Rattle.cfgbase.specs.Locations.{location_view};
ghost use Rattle.cfgkinds.specs.Values.{namespaced_view, value_view, map_namespaced, map_value};
ghost use Rattle.cfgkinds.specs.YaccKinds.{Refuses, action_name, from_kind, judged, kind_of_value, name_of_kind};
ghost use Rattle.cfgkinds.specs.YaccKinds.{original_kind, plain_kind, value_of_kind, wrong_member, wrong_namespace};

use crate::fault::KindFault;
use crate::kind::{YaccKind, YaccOriginalActionKind};
use crate::value::{Namespaced, Setting, Value};
use cfgbase::Location;
use cfgerrors::{HeaderError, HeaderErrorKind};
use std::alloc::{AllocError, Global};

/// The key of a section that names a kind, and the namespace of kinds.
pub const KIND_NAMESPACE: &str = "yacckind";

const ACTION_NAMESPACE: &str = "yaccoriginalactionkind";

impl YaccKind {
    /// The kind that a value names: `grmtools`, `eco`, or `original(x)` with `noaction`, `useraction` or
    /// `genericparsetree` as x. Each name may have its namespace before it: `yacckind`, and for x
    /// `yaccoriginalactionkind`. Names are compared byte for byte. Only a refusal allocates.
    ///
    /// # Errors
    ///
    /// `InvalidEntry` with clones of the locations of the wrong parts, in order, each part judged by itself; with the
    /// value's primary location if it isn't made of names. Or running out of memory for the locations.
    pub fn try_from_value<T: Clone + Drop>(
        alloc: Global,
        value: &Value<T>,
    ) -> Result<YaccKind, KindFault<T>>
        ensures ok { IfOk result (λ kind. kind_of_value (value_view value.now) ≡ Ok kind) }
        ensures err { IfErr result (λ fault. Refuses T.is_clone (kind_of_value (value_view value.now)) fault) }
    {
        match value {
            Value::Setting(Setting::Unitary(name)) => {
                let kind = plain_kind(name.member.0.as_str());
                let (namespace, member) = wrong_parts(KIND_NAMESPACE, kind.is_some(), name);
                judged(alloc, &[namespace, member], kind)
            }
            Value::Setting(Setting::Constructor { ctor, arg }) => {
                let kind = original_kind(arg.member.0.as_str());
                let is_original = ctor.member.0.as_str() == "original";
                let (before, original) = wrong_parts(KIND_NAMESPACE, is_original, ctor);
                let (inside, action) = wrong_parts(ACTION_NAMESPACE, kind.is_some(), arg);
                judged(alloc, &[before, original, inside, action], kind)
            }
            _ => judged(alloc, &[Some(value.primary_location())], None),
        }
    }
}

/// The kind that a name names by itself.
fn plain_kind(name: &str) -> Option<YaccKind>
    ensures { result ≡ plain_kind name.now }
{
    match name {
        "grmtools" => Some(YaccKind::Grmtools),
        "eco" => Some(YaccKind::Eco),
        _ => None,
    }
}

/// The kind that a name of a kind of actions makes of `original`.
fn original_kind(name: &str) -> Option<YaccKind>
    ensures { result ≡ original_kind name.now }
{
    let action = match name {
        "noaction" => YaccOriginalActionKind::NoAction,
        "useraction" => YaccOriginalActionKind::UserAction,
        "genericparsetree" => YaccOriginalActionKind::GenericParseTree,
        _ => return None,
    };
    Some(YaccKind::Original(action))
}

/// The location of the name's namespace if it isn't this one, and the location of the name if it is unknown.
fn wrong_parts<'a, T>(
    namespace: &str,
    known: bool,
    name: &'a Namespaced<T>,
) -> (Option<&'a T>, Option<&'a T>)
    ensures namespace { option_copied result.0 ≡ wrong_namespace namespace.now (namespaced_view name.now).namespace }
    ensures member { option_copied result.1 ≡ wrong_member known (namespaced_view name.now).member }
{
    let wrong_namespace = match &name.namespace {
        Some((given, location)) if given.as_str() != namespace => Some(location),
        _ => None,
    };
    let wrong_member = if known { None } else { Some(&name.member.1) };
    (wrong_namespace, wrong_member)
}

/// The kind, if there is one and no part is wrong.
fn judged<T: Clone + Drop>(
    alloc: Global,
    parts: &[Option<&T>],
    kind: Option<YaccKind>,
) -> Result<YaccKind, KindFault<T>>
    ensures ok { IfOk result (λ named. judged (map option_copied parts.now) kind ≡ Ok named) }
    ensures err { IfErr result (λ fault. Refuses T.is_clone (judged (map option_copied parts.now) kind) fault) }
{
    let mut locations = Vec::new(alloc);
    for part in parts {
        let Some(location) = *part else { continue };
        locations.push(location.clone()?)?;
    }
    match kind {
        Some(kind) if locations.is_empty() => Ok(kind),
        _ => Err(KindFault::Error(HeaderError {
            kind: HeaderErrorKind::InvalidEntry(KIND_NAMESPACE),
            locations,
        })),
    }
}

impl Value<Location> {
    /// The value that names a kind, with both namespaces. Each of its locations is `Other("From<YaccKind>")`.
    ///
    /// # Errors
    ///
    /// Running out of memory for the names and locations.
    pub fn try_from_kind(alloc: Global, kind: YaccKind) -> Result<Value<Location>, AllocError>
        ensures { IfOk result (λ value. map_value location_view (value_view value) ≡ value_of_kind kind) }
    {
        let setting = match kind {
            YaccKind::Grmtools => Setting::Unitary(named(alloc, KIND_NAMESPACE, "grmtools")?),
            YaccKind::Eco => Setting::Unitary(named(alloc, KIND_NAMESPACE, "eco")?),
            YaccKind::Original(action) => {
                let ctor = named(alloc, KIND_NAMESPACE, "original")?;
                let arg = named(alloc, ACTION_NAMESPACE, action_name(action))?;
                Setting::Constructor { ctor, arg }
            }
        };
        Ok(Value::Setting(setting))
    }
}

/// The name of a kind of actions.
fn action_name(action: YaccOriginalActionKind) -> &'static str
    ensures { result.now ≡ action_name action }
{
    match action {
        YaccOriginalActionKind::NoAction => "noaction",
        YaccOriginalActionKind::UserAction => "useraction",
        YaccOriginalActionKind::GenericParseTree => "genericparsetree",
    }
}

/// A name qualified by a namespace, as made from a kind.
fn named(alloc: Global, namespace: &str, name: &str) -> Result<Namespaced<Location>, AllocError>
    ensures { IfOk result (λ both. map_namespaced location_view (namespaced_view both)
        ≡ name_of_kind namespace.now name.now) }
{
    let namespace = located(alloc, namespace)?;
    let member = located(alloc, name)?;
    Ok(Namespaced {
        namespace: Some(namespace),
        member,
    })
}

/// A name and its location, as made from a kind.
fn located(alloc: Global, name: &str) -> Result<(String, Location), AllocError>
    ensures name { IfOk result (λ located. string_bytes located.0 ≡ name.now) }
    ensures location { IfOk result (λ located. location_view located.1 ≡ from_kind) }
{
    let name = String::from_str(alloc, name)?;
    let words = String::from_str(alloc, "From<YaccKind>")?;
    Ok((name, Location::Other(words)))
}
