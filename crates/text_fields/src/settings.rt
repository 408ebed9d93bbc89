//! Settings: a field of a policy and its new value. Names and values are those of the database's text, with `never` for
//! null. This module also has the versions of that text, since a new field needs a new one, and what the help says
//! about fields.
ghost use Rattle.std.specs.Prelude.{◌≡◌, ℤ, ℕ, Bool, Option, Some, IfSome, IfNone, bytes_eq, find};
ghost use Rattle.std.specs.List.{fold};
ghost use Rattle.std.specs.Option.{option_copied};
ghost use Rattle.principal_rows.specs.declared.policy.Policy as policies;
ghost use Rattle.text_fields.specs.Settings.{flag_name, life_name, time_name, setting_name, field_named};
ghost use Rattle.text_fields.specs.Settings.{flag_row, life_row, time_row, since};
ghost use Rattle.text_fields.specs.Settings.{flag_of, life_of, time_of};
ghost use Rattle.text_fields.specs.Settings.{IsFlagText, IsTimeText, IsSettingOf, IsSettingText, IsDateOf};
ghost use Rattle.text_fields.specs.Settings.{with_setting};
ghost use Rattle.text_fields.specs.Settings.{field_kind, settings_of};
ghost use Rattle.text_fields.specs.declared.settings.FlagField as flags;
ghost use Rattle.text_fields.specs.declared.settings.LifeField as lives;
ghost use Rattle.text_fields.specs.declared.settings.TimeField as times;
ghost use Rattle.text_fields.specs.declared.settings.Setting as settings;
ghost use Rattle.text_fields.specs.declared.settings.Setting.TheVariants as kinds;

use crate::dates::{UtcDate, date};
use crate::numbers::{number, number_u32};
use krb_fields::Second;
use principal_rows::Policy;
use std::fmt;

/// A boolean field.
#[derive(Clone, Copy, PartialEq, Eq)]
pub enum FlagField {
    /// The principal gets no tickets, and none are issued for it.
    Disabled,
    /// The principal's first ticket requires a timestamp.
    Preauth,
    /// Tickets may be forwardable.
    Forwardable,
    /// Tickets may be proxiable.
    Proxiable,
    /// Tickets may be postdated.
    Postdate,
    /// Tickets for the service have the flag OK-AS-DELEGATE.
    OkAsDelegate,
    /// Tickets may be issued for the principal.
    Service,
}

/// A field that is a number of seconds.
#[derive(Clone, Copy, PartialEq, Eq)]
pub enum LifeField {
    /// The greatest lifetime of a ticket.
    GreatestLife,
    /// How long a ticket is renewable at most.
    GreatestRenewable,
}

/// A field that is a moment, or none.
#[derive(Clone, Copy, PartialEq, Eq)]
pub enum TimeField {
    /// When the principal expires.
    Expires,
    /// When its password expires.
    PasswordExpires,
    /// Tickets whose client authenticated before this moment are revoked.
    RevokedBefore,
}

/// What the value of a field is.
#[derive(Clone, Copy, PartialEq, Eq)]
pub enum FieldKind {
    /// A boolean.
    Flag,
    /// A number of seconds.
    Life,
    /// A moment, or none.
    Time,
}

/// How many fields a policy has.
pub const SETTINGS: usize = 12;

/// How many fields come before the member `keys` of a row, in the order of names.
pub const BEFORE_KEYS: usize = 5;

/// The number of the newest version of the database's text, which is written.
pub const NEWEST_VERSION: u64 = 3;

/// The text of that number.
pub const NEWEST_VERSION_TEXT: &str = "3";

/// What becomes of a text in an older version, for the help.
pub const MIGRATION: &str = "Writes a database of version 1 or 2 as version 3";

/// The names of the fields, for the help.
pub const FIELD_NAMES: &str = "\
A flag (disabled, preauth, forwardable, proxiable, postdate, ok_as_delegate, service), a time (expires, \
password_expires, revoked_before) or a lifetime (greatest_life, greatest_renewable)";

/// A field of a policy with its value.
#[derive(Clone, Copy, PartialEq, Eq)]
pub enum Setting {
    /// A boolean field.
    Flag(FlagField, bool),
    /// A number of seconds.
    Life(LifeField, u32),
    /// A moment, or none.
    Time(TimeField, Option<Second>),
}

/// What the database's text and commands call a field, and the version of that text which brought it.
#[derive(Clone, Copy)]
struct FieldRow {
    name: &'static str,
    since: u64,
}

impl FieldRow {
    fn new(name: &'static str, since: u64) -> FieldRow
        ensures { (result.name.now ≡ name.now) × (result.since ≡ since) }
    {
        FieldRow { name, since }
    }
}

impl FlagField {
    /// Returns the field's name in the database's text and in commands.
    #[tactic(auto, using(crate::specs::SettingLaws::flag_found))]
    pub fn name(self) -> &'static str
        ensures name { result.now ≡ flag_name self }
        ensures found { flag_of result.now ≡ Some self }
    {
        self.row().name
    }

    fn row(self) -> FieldRow
        ensures name { result.name.now ≡ flag_name self }
        ensures since { result.since ≡ (flag_row self).1 }
    {
        match self {
            FlagField::Disabled => FieldRow::new("disabled", 1),
            FlagField::Preauth => FieldRow::new("preauth", 1),
            FlagField::Forwardable => FieldRow::new("forwardable", 1),
            FlagField::Proxiable => FieldRow::new("proxiable", 1),
            FlagField::Postdate => FieldRow::new("postdate", 1),
            FlagField::OkAsDelegate => FieldRow::new("ok_as_delegate", 1),
            FlagField::Service => FieldRow::new("service", 3),
        }
    }
}

impl LifeField {
    /// Returns the field's name in the database's text and in commands.
    #[tactic(auto, using(crate::specs::SettingLaws::life_found))]
    pub fn name(self) -> &'static str
        ensures name { result.now ≡ life_name self }
        ensures found { life_of result.now ≡ Some self }
    {
        self.row().name
    }

    fn row(self) -> FieldRow
        ensures name { result.name.now ≡ life_name self }
        ensures since { result.since ≡ (life_row self).1 }
    {
        match self {
            LifeField::GreatestLife => FieldRow::new("greatest_life", 1),
            LifeField::GreatestRenewable => FieldRow::new("greatest_renewable", 1),
        }
    }
}

impl TimeField {
    /// Returns the field's name in the database's text and in commands.
    #[tactic(auto, using(crate::specs::SettingLaws::time_found))]
    pub fn name(self) -> &'static str
        ensures name { result.now ≡ time_name self }
        ensures found { time_of result.now ≡ Some self }
    {
        self.row().name
    }

    fn row(self) -> FieldRow
        ensures name { result.name.now ≡ time_name self }
        ensures since { result.since ≡ (time_row self).1 }
    {
        match self {
            TimeField::Expires => FieldRow::new("expires", 1),
            TimeField::PasswordExpires => FieldRow::new("password_expires", 1),
            TimeField::RevokedBefore => FieldRow::new("revoked_before", 2),
        }
    }
}

impl Setting {
    /// Reads a field's name and its value, with an equals sign between them.
    pub fn parse(text: &str) -> Option<Setting>
        // Promise (read, none), as parse_setting: a field of a ..
        ensures read { IfSome result (λ setting. IsSettingText setting text.now) }
        ensures none { IfNone result ((setting : settings.Setting) → ¬ IsSettingText setting text.now) }
    {
        let (name, value) = text.split_once('=')?;
        Setting::of(name, value)
    }

    /// Reads the value of the field with this name. Returns `None` if there is no such field or the value isn't valid
    /// for it.
    pub fn of(name: &str, value: &str) -> Option<Setting>
        // Promise (read, none), as parse_setting: a field of a ..
        ensures read { IfSome result (λ setting. IsSettingOf setting name.now value.now) }
        ensures none { IfNone result ((setting : settings.Setting) → ¬ IsSettingOf setting name.now value.now) }
    {
        match field_named(name)? {
            Setting::Flag(field, _) => Some(Setting::Flag(field, flag(value)?)),
            Setting::Life(field, _) => Some(Setting::Life(field, number_u32(value)?)),
            Setting::Time(field, _) => Some(Setting::Time(field, time(value)?)),
        }
    }

    /// Reads a date as the value of the field with this name. Returns `None` if there is no such field, its value is
    /// not a time, or this is not a date.
    pub fn of_date(name: &str, value: &str) -> Option<Setting>
        // Promise (read, none), as parse_setting: a field of a ..
        ensures read { IfSome result (λ setting. IsDateOf setting name.now value.now) }
        ensures none { IfNone result ((setting : settings.Setting) → ¬ IsDateOf setting name.now value.now) }
    {
        Some(Setting::Time(time_field(name)?, Some(date(value)?)))
    }

    /// Returns the field's name in the database's text and in commands.
    pub fn name(self) -> &'static str
        ensures { result.now ≡ setting_name self }
    {
        self.row().name
    }

    /// Returns the number of the version of the database's text that brought the field.
    pub fn since(self) -> u64
        // Promise, as field_kind: `field_kind` says which kind ..
        ensures { result ≡ since self }
    {
        self.row().since
    }

    fn row(self) -> FieldRow
        ensures name { result.name.now ≡ setting_name self }
        ensures since { result.since ≡ since self }
    {
        match self {
            Setting::Flag(field, _) => field.row(),
            Setting::Life(field, _) => field.row(),
            Setting::Time(field, _) => field.row(),
        }
    }

    /// Returns the settings of a policy, in the order of their names.
    pub fn all(policy: Policy) -> [Setting; SETTINGS]
        // Promise (settings, same), as Setting::on: setting all fields of ..
        ensures settings { result ≡ settings_of policy }
        ensures same { (other : policies.Policy)
            → fold (λ made setting. with_setting setting made) other result ≡ policy }
    {
        [
            Setting::Flag(FlagField::Disabled, policy.disabled),
            Setting::Time(TimeField::Expires, policy.expires),
            Setting::Flag(FlagField::Forwardable, policy.forwardable),
            Setting::Life(LifeField::GreatestLife, policy.greatest_life),
            Setting::Life(LifeField::GreatestRenewable, policy.greatest_renewable),
            Setting::Flag(FlagField::OkAsDelegate, policy.ok_as_delegate),
            Setting::Time(TimeField::PasswordExpires, policy.password_expires),
            Setting::Flag(FlagField::Postdate, policy.postdate),
            Setting::Flag(FlagField::Preauth, policy.preauth),
            Setting::Flag(FlagField::Proxiable, policy.proxiable),
            Setting::Time(TimeField::RevokedBefore, policy.revoked_before),
            Setting::Flag(FlagField::Service, policy.service),
        ]
    }

    /// Returns the policy with this field set.
    pub fn on(self, policy: Policy) -> Policy
        // Promise: setting all fields of a policy in another one makes the two equal.
        ensures { result ≡ with_setting self policy }
    {
        let mut policy = policy;
        match self {
            Setting::Flag(FlagField::Disabled, on) => policy.disabled = on,
            Setting::Flag(FlagField::Preauth, on) => policy.preauth = on,
            Setting::Flag(FlagField::Forwardable, on) => policy.forwardable = on,
            Setting::Flag(FlagField::Proxiable, on) => policy.proxiable = on,
            Setting::Flag(FlagField::Postdate, on) => policy.postdate = on,
            Setting::Flag(FlagField::OkAsDelegate, on) => policy.ok_as_delegate = on,
            Setting::Flag(FlagField::Service, on) => policy.service = on,
            Setting::Life(LifeField::GreatestLife, life) => policy.greatest_life = life,
            Setting::Life(LifeField::GreatestRenewable, life) => policy.greatest_renewable = life,
            Setting::Time(TimeField::Expires, time) => policy.expires = time,
            Setting::Time(TimeField::PasswordExpires, time) => policy.password_expires = time,
            Setting::Time(TimeField::RevokedBefore, time) => policy.revoked_before = time,
        }
        policy
    }
}

/// The field's name and its value, with a space between them. A second is followed by its date.
impl fmt::Display for Setting {
    fn fmt<W: fmt::Write>(&self, f: &mut fmt::Formatter<W>) -> fmt::Result {
        let name = self.name();
        match self {
            Setting::Flag(_, on) => write!(f, "{name} {on}"),
            Setting::Life(_, life) => write!(f, "{name} {life}"),
            Setting::Time(_, None) => write!(f, "{name} never"),
            Setting::Time(_, Some(second)) => {
                write!(f, "{name} {} {}", second.get(), UtcDate(*second))
            }
        }
    }
}

/// Returns what the value of the field with this name is. `None` if a policy has no such field.
pub fn field_kind(name: &str) -> Option<FieldKind>
    // Promise: `field_kind` says which kind of value a field takes, and `since` which version of the database's text
    // brought it.
    ensures { result ≡ field_kind name.now }
{
    match field_named(name) {
        Some(Setting::Flag(..)) => Some(FieldKind::Flag),
        Some(Setting::Life(..)) => Some(FieldKind::Life),
        Some(Setting::Time(..)) => Some(FieldKind::Time),
        None => None,
    }
}

/// Returns the field that has this name and is a lifetime.
pub(crate) fn life_field(name: &str) -> Option<LifeField>
    ensures { result ≡ life_of name.now }
{
    match field_named(name) {
        Some(Setting::Life(field, _)) => Some(field),
        _ => None,
    }
}

/// Returns the field that has this name and is a time.
pub(crate) fn time_field(name: &str) -> Option<TimeField>
    ensures { result ≡ time_of name.now }
{
    match field_named(name) {
        Some(Setting::Time(field, _)) => Some(field),
        _ => None,
    }
}

/// Returns the field with this name, and its value for a new principal.
#[tactic(auto, unfolding(crate::specs::Settings::field_named))]
fn field_named(name: &str) -> Option<Setting>
    ensures { result ≡ field_named name.now }
{
    named(&Setting::all(Policy::default()), name).copied()
}

/// Returns the first of the settings whose field has this name.
fn named<'a>(settings: &'a [Setting], name: &str) -> Option<&'a Setting>
    ensures { option_copied result ≡ find (λ setting. bytes_eq (setting_name setting) name.now) settings.now }
{
    settings.iter().find(|setting| setting.name() == name)
}

fn flag(text: &str) -> Option<bool>
    ensures read { IfSome result (λ on. IsFlagText on text.now) }
    ensures none { IfNone result ((on : Bool) → ¬ IsFlagText on text.now) }
{
    match text {
        "true" => Some(true),
        "false" => Some(false),
        _ => None,
    }
}

/// Reads a second in decimal, or `never`.
fn time(text: &str) -> Option<Option<Second>>
    ensures read { IfSome result (λ time. IsTimeText time text.now) }
    ensures none { IfNone result ((time : Option ℤ) → ¬ IsTimeText time text.now) }
{
    if text == "never" {
        return Some(None);
    }
    let second = i64::try_from(number(text)?).ok()?;
    Some(Some(Second::new(second)?))
}
