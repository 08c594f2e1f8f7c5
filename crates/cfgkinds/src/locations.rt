//! Values with spans, as values with locations.

ghost use Rattle.std.specs.Prelude.{◌≡◌, IfOk};
ghost use Rattle.cfgbase.specs.declared.span.Location.TheVariants.{Span as at_span};
ghost use Rattle.cfgkinds.specs.Values.{header_value_view, map_header_value, map_namespaced, map_setting};
ghost use Rattle.cfgkinds.specs.Values.{map_settings, map_value, namespaced_view, setting_view, settings_view};
ghost use Rattle.cfgkinds.specs.Values.{value_view};

use crate::value::{HeaderValue, Namespaced, Setting, Value};
use cfgbase::{Location, Span};
use std::alloc::{AllocError, Global};

impl HeaderValue<Span> {
    /// The same, with each span as a `Location::Span`.
    ///
    /// # Errors
    ///
    /// Running out of memory for the copies of names and texts.
    pub fn to_location(&self, alloc: Global) -> Result<HeaderValue<Location>, AllocError>
        ensures { IfOk result (λ entry. header_value_view entry
            ≡ map_header_value at_span (header_value_view self.now)) }
    {
        Ok(HeaderValue(Location::Span(self.0), self.1.to_location(alloc)?))
    }
}

impl Value<Span> {
    /// The same, with each span as a `Location::Span`.
    ///
    /// # Errors
    ///
    /// Running out of memory for the copies of names and texts.
    pub fn to_location(&self, alloc: Global) -> Result<Value<Location>, AllocError>
        ensures { IfOk result (λ value. value_view value ≡ map_value at_span (value_view self.now)) }
    {
        match self {
            Value::Flag(on, span) => Ok(Value::Flag(*on, Location::Span(*span))),
            Value::Setting(setting) => Ok(Value::Setting(setting.to_location(alloc)?)),
        }
    }
}

impl Setting<Span> {
    /// The same, with each span as a `Location::Span`.
    ///
    /// # Errors
    ///
    /// Running out of memory for the copies of names and texts.
    pub fn to_location(&self, alloc: Global) -> Result<Setting<Location>, AllocError>
        ensures { IfOk result (λ setting. setting_view setting ≡ map_setting at_span (setting_view self.now)) }
    {
        located(alloc, self)
    }
}

#[cycle(located)]
fn located(alloc: Global, setting: &Setting<Span>) -> Result<Setting<Location>, AllocError>
    ensures { IfOk result (λ copy. setting_view copy ≡ map_setting at_span (setting_view setting.now)) }
{
    match setting {
        Setting::Unitary(name) => Ok(Setting::Unitary(name.to_location()?)),
        Setting::Constructor { ctor, arg } => {
            let ctor = ctor.to_location()?;
            let arg = arg.to_location()?;
            Ok(Setting::Constructor { ctor, arg })
        }
        Setting::Num(number, span) => Ok(Setting::Num(*number, Location::Span(*span))),
        Setting::String(text, span) => Ok(Setting::String(text.clone()?, Location::Span(*span))),
        Setting::Array(settings, opens, closes) => Ok(Setting::Array(
            all_located(alloc, settings)?,
            Location::Span(*opens),
            Location::Span(*closes),
        )),
    }
}

#[cycle(located)]
fn all_located(
    alloc: Global,
    settings: &Vec<Setting<Span>>,
) -> Result<Vec<Setting<Location>>, AllocError>
    ensures { IfOk result (λ copies. settings_view copies.items
        ≡ map_settings at_span (settings_view settings.now.items)) }
{
    let mut copies = Vec::with_capacity(alloc, settings.len())?;
    for setting in settings {
        copies.push(located(alloc, setting)?)?;
    }
    Ok(copies)
}

impl Namespaced<Span> {
    /// The same, with each span as a `Location::Span`.
    fn to_location(&self) -> Result<Namespaced<Location>, AllocError>
        ensures { IfOk result (λ name. namespaced_view name ≡ map_namespaced at_span (namespaced_view self.now)) }
    {
        let namespace = match &self.namespace {
            Some((name, span)) => Some((name.clone()?, Location::Span(*span))),
            None => None,
        };
        let member = (self.member.0.clone()?, Location::Span(self.member.1));
        Ok(Namespaced { namespace, member })
    }
}
