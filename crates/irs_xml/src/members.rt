//! The members of an element's value, one after another.

ghost use Rattle.irs_xml.specs.Private.TagViews.{setting_view};
ghost use Rattle.irs_xml.specs.Content.{is_counted as is_counted_of, item_last, joined_values, with_child};
ghost use Rattle.irs_xml.specs.Content.{with_settings};
ghost use Rattle.serde_json.specs.Data.{array, item, no_items, no_members, put, string};
ghost use Rattle.serde_json.specs.View.{items_view, members_view, view};
ghost use Rattle.std.specs.Prelude.{◌≡◌, ◌∷◌, IfOk, OnOk, map, option_map, string_bytes};

use crate::namespaces::is_declaration;
use crate::settings::Setting;
use serde_json::{Map, Value};
use std::alloc::{AllocError, Global};

/// The members of the attributes that count.
pub(crate) fn setting_members(
    alloc: Global,
    settings: &[Setting<'_>],
) -> Result<Map<String, Value>, AllocError>
    ensures { IfOk result (λ m. members_view m.entries ≡ with_settings (map setting_view settings.now) no_members) }
{
    let mut members = Map::new(alloc);
    for setting in settings {
        if is_counted(setting) {
            put_setting(&mut members, alloc, setting)?;
        }
    }
    Ok(members)
}

// An attribute counts where its name has no prefix, and where it declares no namespace.
fn is_counted(setting: &Setting<'_>) -> bool
    ensures { result ≡ is_counted_of (setting_view setting.now) }
{
    setting.prefix == "" && !is_declaration(setting)
}

// The member of an attribute: `@` before its name, and its value.
fn put_setting(
    members: &mut Map<String, Value>,
    alloc: Global,
    setting: &Setting<'_>,
) -> Result<(), AllocError>
    ensures { OnOk result (members_view members.new.entries
        ≡ put (64 ∷ (setting_view setting.now).local) (string (setting_view setting.now).value) (members_view members.old.entries)) }
{
    let mut name = String::from_str(alloc, "@")?;
    name.push_str(setting.local)?;
    let value = Value::try_from_str(alloc, setting.value.as_str())?;
    members.insert(name, value)?;
    Ok(())
}

/// The members with that of a child, whose values are an array where its name comes again.
pub(crate) fn put_child(
    members: &mut Map<String, Value>,
    alloc: Global,
    name: String,
    value: Value,
) -> Result<(), AllocError>
    ensures { OnOk result (members_view members.new.entries ≡ with_child (string_bytes name, view value) (members_view members.old.entries)) }
{
    let first = members.remove(name.as_str());
    let joined = join(alloc, first, value)?;
    members.insert(name, joined)?;
    Ok(())
}

// The values of children of one name: one is itself, several are an array.
fn join(alloc: Global, first: Option<Value>, next: Value) -> Result<Value, AllocError>
    ensures { IfOk result (λ v. view v ≡ joined_values (option_map view first) (view next)) }
{
    match first {
        None => Ok(next),
        Some(Value::Array(items)) => longer(items, next),
        Some(Value::Null) => pair(alloc, Value::Null, next),
        Some(Value::Bool(b)) => pair(alloc, Value::Bool(b), next),
        Some(Value::Number(n)) => pair(alloc, Value::Number(n), next),
        Some(Value::String(s)) => pair(alloc, Value::String(s), next),
        Some(Value::Object(m)) => pair(alloc, Value::Object(m), next),
    }
}

// An array of these values and one more.
fn longer(mut items: Vec<Value>, next: Value) -> Result<Value, AllocError>
    ensures { IfOk result (λ v. view v ≡ array (item_last (items_view items.items) (view next))) }
{
    items.push(next)?;
    Ok(Value::Array(items))
}

// An array of two values.
fn pair(alloc: Global, first: Value, next: Value) -> Result<Value, AllocError>
    ensures { IfOk result (λ v. view v ≡ array (item (view first) (item (view next) no_items))) }
{
    let mut items = Vec::new(alloc);
    items.push(first)?;
    items.push(next)?;
    Ok(Value::Array(items))
}
