//! The values of a section.

ghost use Rattle.std.specs.Prelude.{◌≡◌};

/// A name, with its location, that may have a namespace.
#[derive(Debug, Drop, PartialEq, Eq)]
pub struct Namespaced<T> {
    /// The namespace and its location, if one is given.
    pub namespace: Option<(String, T)>,
    /// The name itself and its location.
    pub member: (String, T),
}

/// What follows a key's colon. Each `T` is a location.
#[derive(Debug, Drop)]
pub enum Setting<T> {
    /// A name.
    Unitary(Namespaced<T>),
    /// A name, and in brackets the name that it is applied to.
    Constructor {
        /// The name before the brackets.
        ctor: Namespaced<T>,
        /// The name inside the brackets.
        arg: Namespaced<T>,
    },
    /// A number.
    Num(u64, T),
    /// A text, as it is between its quotes.
    String(String, T),
    /// A list of settings, with the locations of its two brackets.
    Array(Vec<Setting<T>>, T, T),
}

/// A key's value.
#[derive(Debug, Drop, PartialEq, Eq)]
pub enum Value<T> {
    /// Whether the key is given by itself, or after a `!`.
    Flag(bool, T),
    /// What follows its colon.
    Setting(Setting<T>),
}

impl<T> Value<T> {
    ghost use Rattle.cfgkinds.specs.Values.{value_view, value_offset};

    /// The location that represents the value in an error: of an array its opening bracket's, of a name that of the
    /// name without its namespace, and of a name that is applied to another the other's.
    pub fn primary_location(&self) -> &T
        ensures { result.now ≡ value_offset (value_view self.now) }
    {
        match self {
            Value::Flag(_, location)
            | Value::Setting(Setting::Num(_, location))
            | Value::Setting(Setting::String(_, location))
            | Value::Setting(Setting::Array(_, location, _)) => location,
            Value::Setting(Setting::Unitary(name)) => &name.member.1,
            Value::Setting(Setting::Constructor { arg, .. }) => &arg.member.1,
        }
    }
}

/// A key's location, and its value.
#[derive(Debug, Drop, PartialEq)]
pub struct HeaderValue<T>(pub T, pub Value<T>);
