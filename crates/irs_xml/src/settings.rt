//! What a tag says.

/// An attribute: its name, in two parts, and what its value says.
#[derive(Drop)]
pub(crate) struct Setting<'a> {
    /// The prefix, empty where there is none.
    pub(crate) prefix: &'a str,
    pub(crate) local: &'a str,
    pub(crate) value: String,
}

/// A start tag, or the tag of an empty element.
#[derive(Drop)]
pub(crate) struct Tag<'a> {
    /// The prefix, empty where there is none.
    pub(crate) prefix: &'a str,
    pub(crate) local: &'a str,
    /// The attributes in order, declarations of namespaces included.
    pub(crate) settings: Vec<Setting<'a>>,
    pub(crate) is_empty: bool,
}

/// A declaration of a namespace.
#[derive(Drop)]
pub(crate) struct Declaration<'a> {
    /// The prefix, empty for the default.
    pub(crate) prefix: &'a str,
    /// The name of the namespace, empty for none.
    pub(crate) namespace: String,
}

/// An attribute by its name's local part and namespace, as two attributes of a tag are compared.
#[derive(Clone, Copy)]
pub(crate) struct Resolved<'a> {
    pub(crate) local: &'a str,
    /// The name of the namespace, empty without a prefix. None where the prefix isn't declared.
    pub(crate) namespace: Option<&'a str>,
}
