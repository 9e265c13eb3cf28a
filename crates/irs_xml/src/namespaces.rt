//! Which namespace a prefix names, and what a tag may declare: Namespaces in XML 1.0 (third
//! edition).
ghost use Rattle.irs_xml.specs.Tags.{attribute_namespace as attribute_namespace_of, are_unlike as are_unlike_of};
ghost use Rattle.irs_xml.specs.Tags.{declarations, declared_prefix as declared_prefix_of, first_scope};
ghost use Rattle.irs_xml.specs.Tags.{is_declaration as is_declaration_of, is_lawful as is_lawful_of, is_opened_in};
ghost use Rattle.irs_xml.specs.Tags.{is_same_namespace as is_same_of, may_declare as may_declare_of, namespace_of};
ghost use Rattle.irs_xml.specs.Private.TagViews.{are_distinct, is_alike, resolve as resolve_of, opening_view};
ghost use Rattle.irs_xml.specs.Private.TagViews.{resolved_view, scope_view, setting_view};
ghost use Rattle.std.specs.List.{list_all, list_any};
ghost use Rattle.std.specs.Option.{option_map};
ghost use Rattle.std.specs.Str.{bytes_eq};
ghost use Rattle.std.specs.Prelude.{◌≡◌, ◌&&◌, [], ◌∷◌, ◌++◌, IfOk, OnOk, is_some, map};

use crate::settings::{Declaration, Resolved, Setting, Tag};
use std::alloc::{AllocError, Global};

const XML_NAMESPACE: &str = "http://www.w3.org/XML/1998/namespace";

const XMLNS_NAMESPACE: &str = "http://www.w3.org/2000/xmlns/";

/// What is in scope round the root: no default, and the two prefixes that are bound by definition.
#[tactic(auto, unfolding(crate::specs::Tags::first_scope))]
pub(crate) fn first_declarations<'a>(alloc: Global) -> Result<Vec<Declaration<'a>>, AllocError>
    ensures { IfOk result (λ v. scope_view v.items ≡ first_scope) }
{
    let mut scope = Vec::new(alloc);
    declare(&mut scope, alloc, "", "")?;
    declare(&mut scope, alloc, "xml", XML_NAMESPACE)?;
    declare(&mut scope, alloc, "xmlns", XMLNS_NAMESPACE)?;
    Ok(scope)
}

// Adds a declaration after those in scope.
fn declare<'a>(
    scope: &mut Vec<Declaration<'a>>,
    alloc: Global,
    prefix: &'a str,
    namespace: &str,
) -> Result<(), AllocError>
    ensures { OnOk result (scope_view scope.new.items ≡ scope_view scope.old.items ++ (prefix.entry.now, namespace.now) ∷ []) }
{
    scope.push(Declaration {
        prefix,
        namespace: String::from_str(alloc, namespace)?,
    })?;
    Ok(())
}

/// Adds the declarations of a tag after those in scope.
pub(crate) fn declare_all<'a>(
    scope: &mut Vec<Declaration<'a>>,
    alloc: Global,
    settings: &[Setting<'a>],
) -> Result<(), AllocError>
    ensures { OnOk result (scope_view scope.new.items
        ≡ scope_view scope.old.items ++ declarations (map setting_view settings.now)) }
{
    for setting in settings {
        if is_declaration(setting) {
            declare(
                scope,
                alloc,
                declared_prefix(setting),
                setting.value.as_str(),
            )?;
        }
    }
    Ok(())
}

// The prefix that a declaration declares, empty for the default.
#[tactic(auto, unfolding(crate::specs::Tags::declared_prefix))]
fn declared_prefix<'a>(setting: &Setting<'a>) -> &'a str
    ensures { result.now ≡ declared_prefix_of (setting_view setting.now) }
{
    if setting.prefix == "xmlns" {
        setting.local
    } else {
        ""
    }
}

/// The attribute declares a namespace.
#[tactic(auto, unfolding(crate::specs::Tags::is_declaration))]
pub(crate) fn is_declaration(setting: &Setting<'_>) -> bool
    ensures { result ≡ is_declaration_of (setting_view setting.now) }
{
    setting.prefix == "xmlns" || (setting.prefix == "" && setting.local == "xmlns")
}

// The declaration is of that prefix. The lengths of most prefixes differ, which is seen at once.
fn declares(declaration: &Declaration<'_>, prefix: &str) -> bool
    ensures { result ≡ bytes_eq declaration.now.prefix.now prefix.now }
{
    if declaration.prefix.len() != prefix.len() {
        return false;
    }
    declaration.prefix == prefix
}

/// The namespace of a prefix, and of an element without one. The last declaration holds.
pub(crate) fn namespace<'s>(scope: &'s [Declaration<'_>], prefix: &str) -> Option<&'s str>
    ensures { option_map (λ n. n.now) result ≡ namespace_of (scope_view scope.now) prefix.now }
{
    let mut found = None;
    for declaration in scope {
        if declares(declaration, prefix) {
            found = Some(declaration.namespace.as_str());
        }
    }
    found
}

// A namespace may be declared by that prefix.
#[tactic(auto, unfolding(crate::specs::Tags::may_declare))]
fn may_declare(prefix: &str, namespace: &str) -> bool
    ensures { result ≡ may_declare_of prefix.now namespace.now }
{
    prefix != "xmlns"
        && namespace != XMLNS_NAMESPACE
        && (prefix == "xml") == (namespace == XML_NAMESPACE)
        && (prefix == "" || namespace != "")
}

// What the attribute declares, if it does, may be declared.
#[tactic(auto, unfolding(crate::specs::Tags::is_lawful))]
fn is_lawful(setting: &Setting<'_>) -> bool
    ensures { result ≡ is_lawful_of (setting_view setting.now) }
{
    if is_declaration(setting) {
        may_declare(declared_prefix(setting), setting.value.as_str())
    } else {
        true
    }
}

// The namespace of an attribute: none without a prefix.
fn attribute_namespace<'s>(scope: &'s [Declaration<'_>], setting: &Setting<'_>) -> Option<&'s str>
    ensures { option_map (λ n. n.now) result ≡ attribute_namespace_of (scope_view scope.now) (setting_view setting.now) }
{
    if setting.prefix == "" {
        Some("")
    } else {
        namespace(scope, setting.prefix)
    }
}

/// Both are there, and they are one.
pub(crate) fn is_same(a: Option<&str>, b: Option<&str>) -> bool
    ensures { result ≡ is_same_of (option_map (λ n. n.now) a.entry) (option_map (λ n. n.now) b.entry) }
{
    match a {
        None => false,
        Some(a) => match b {
            None => false,
            Some(b) => a == b,
        },
    }
}

// An attribute by its local part and its namespace.
fn resolve<'s>(scope: &'s [Declaration<'_>], setting: &Setting<'s>) -> Resolved<'s>
    ensures { resolved_view result ≡ resolve_of (scope_view scope.now) (setting_view setting.now) }
{
    Resolved {
        local: setting.local,
        namespace: attribute_namespace(scope, setting),
    }
}

// Each attribute by its local part and its namespace, which is looked up once.
fn resolve_all<'s>(
    alloc: Global,
    scope: &'s [Declaration<'_>],
    settings: &[Setting<'s>],
) -> Result<Vec<Resolved<'s>>, AllocError>
    ensures { IfOk result (λ v. map resolved_view v.items
        ≡ map (resolve_of (scope_view scope.now)) (map setting_view settings.now)) }
{
    let mut names = Vec::new(alloc);
    for setting in settings {
        names.push(resolve(scope, setting))?;
    }
    Ok(names)
}

// The attributes have one local part, and one namespace or none both.
fn is_like(a: &Resolved<'_>, b: &Resolved<'_>) -> bool
    ensures { result ≡ is_alike (resolved_view a.now) (resolved_view b.now) }
{
    a.local == b.local && is_same(a.namespace, b.namespace)
}

// One of the others is like the attribute.
fn is_like_any(name: &Resolved<'_>, others: &[Resolved<'_>]) -> bool
    ensures { result ≡ list_any (is_alike (resolved_view name.now)) (map resolved_view others.now) }
{
    for other in others {
        if is_like(name, other) {
            return true;
        }
    }
    false
}

// No two attributes are alike.
fn are_unlike(names: &[Resolved<'_>]) -> bool
    ensures { result ≡ are_distinct (map resolved_view names.now) }
{
    for (index, name) in names.iter().enumerate() {
        if is_like_any(name, &names[index + 1..]) {
            return false;
        }
    }
    true
}

// What each attribute declares may be declared.
fn are_lawful(settings: &[Setting<'_>]) -> bool
    ensures { result ≡ list_all is_lawful_of (map setting_view settings.now) }
{
    for setting in settings {
        if !is_lawful(setting) {
            return false;
        }
    }
    true
}

// The prefix of each attribute is declared.
fn have_namespaces(names: &[Resolved<'_>]) -> bool
    ensures { result ≡ list_all (λ r. is_some r.1) (map resolved_view names.now) }
{
    for name in names {
        if name.namespace.is_none() {
            return false;
        }
    }
    true
}

// The prefix of each attribute is declared, and no two attributes are alike.
fn are_apart(names: &[Resolved<'_>]) -> bool
    ensures { result ≡ (list_all (λ r. is_some r.1) (map resolved_view names.now) && are_distinct (map resolved_view names.now)) }
{
    have_namespaces(names) && are_unlike(names)
}

// The attributes of a tag follow the rules for their names in this scope.
fn are_named(
    alloc: Global,
    scope: &[Declaration<'_>],
    settings: &[Setting<'_>],
) -> Result<bool, AllocError>
    ensures { IfOk result (λ b. b
        ≡ (list_all (λ s. is_some (attribute_namespace_of (scope_view scope.now) s)) (map setting_view settings.now)
        && are_unlike_of (scope_view scope.now) (map setting_view settings.now))) }
{
    let names = resolve_all(alloc, scope, settings)?;
    Ok(are_apart(names.as_slice()))
}

/// The tag follows the rules in this scope, its own declarations included.
pub(crate) fn is_opened(
    alloc: Global,
    scope: &[Declaration<'_>],
    tag: &Tag<'_>,
) -> Result<bool, AllocError>
    ensures { IfOk result (λ b. b ≡ is_opened_in (scope_view scope.now) (opening_view tag.now)) }
{
    let settings = tag.settings.as_slice();
    let named = are_named(alloc, scope, settings)?;
    Ok(
        are_lawful(settings)
            && tag.prefix != "xmlns"
            && namespace(scope, tag.prefix).is_some()
            && named,
    )
}
