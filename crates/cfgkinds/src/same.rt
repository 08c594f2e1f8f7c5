//! `==` of settings, which contain settings.

ghost use Rattle.std.specs.Prelude.{◌≡◌, ◌↔◌, IsTrue};
ghost use Rattle.cfgkinds.specs.SameValues.{same_namespaced, same_setting, same_settings};
ghost use Rattle.cfgkinds.specs.Values.{namespaced_view, setting_view, settings_view};

use crate::value::{Namespaced, Setting};

impl<T: PartialEq> PartialEq for Setting<T> {
    ghost use Rattle.std.specs.Cmp.{on_per};
    ghost use Rattle.cfgkinds.specs.SameValues.{IsIdentity, same_setting_per};

    ghost eq = { λ a b. same_setting T.eq (setting_view a) (setting_view b) };

    ghost laws = { on_per setting_view (same_setting_per T.laws) };

    fn eq(&self, other: &Self) -> bool
        ensures value { result ≡ same_setting T.eq (setting_view self.now) (setting_view other.now) }
        ensures same { IsIdentity T.eq → (IsTrue result ↔ (setting_view self.now ≡ setting_view other.now)) }
    {
        is_same(self, other)
    }
}

impl<T: Eq> Eq for Setting<T> {
    ghost use Rattle.std.specs.Cmp.{on_equiv};
    ghost use Rattle.cfgkinds.specs.SameValues.{same_setting_equiv};

    ghost laws = { on_equiv setting_view (same_setting_equiv T.Eq.laws) };
}

#[cycle(is_same)]
fn is_same<T: PartialEq>(setting: &Setting<T>, other: &Setting<T>) -> bool
    ensures { result ≡ same_setting T.eq (setting_view setting.now) (setting_view other.now) }
{
    match (setting, other) {
        (Setting::Unitary(name), Setting::Unitary(other)) => is_same_name(name, other),
        (
            Setting::Constructor { ctor, arg },
            Setting::Constructor {
                ctor: other,
                arg: inside,
            },
        ) => { is_same_name(ctor, other) && is_same_name(arg, inside) }
        (Setting::Num(number, location), Setting::Num(other, there)) => {
            number == other && location == there
        }
        (Setting::String(text, location), Setting::String(other, there)) => {
            text == other && location == there
        }
        (Setting::Array(settings, opens, closes), Setting::Array(others, starts, ends)) => {
            are_same(settings, others) && opens == starts && closes == ends
        }
        _ => false,
    }
}

#[cycle(is_same)]
fn are_same<T: PartialEq>(settings: &Vec<Setting<T>>, others: &Vec<Setting<T>>) -> bool
    ensures { result ≡ same_settings T.eq (settings_view settings.now.items) (settings_view others.now.items) }
{
    if settings.len() != others.len() {
        return false;
    }
    for (index, setting) in settings.iter().enumerate() {
        if !is_same(setting, &others[index]) {
            return false;
        }
    }
    true
}

fn is_same_name<T: PartialEq>(name: &Namespaced<T>, other: &Namespaced<T>) -> bool
    ensures { result ≡ same_namespaced T.eq (namespaced_view name.now) (namespaced_view other.now) }
{
    name == other
}
