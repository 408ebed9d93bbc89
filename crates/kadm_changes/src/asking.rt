//! The settings of a policy that a command asks for.

/// How a setting is asked for.
#[derive(Clone, Copy, PartialEq, Eq)]
pub enum SettingForm {
    /// The field with its value.
    Set,
    /// The field, and the value apart.
    FieldAndValue,
    /// When the principal expires.
    Expires,
    /// The principal is to be disabled.
    Disabled,
}

/// A field of a policy and its new value, as texts.
#[derive(Clone, Copy)]
pub struct AskedSetting<'a> {
    /// How it is asked for.
    pub form: SettingForm,
    /// The name of the field, such as `greatest_life`.
    pub field: &'a str,
    /// The value, not read yet. It is empty if a value is missing.
    pub value: &'a str,
    /// Whether a time must not be past.
    pub ahead: bool,
}
