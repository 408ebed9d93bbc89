//! The times that a change has set, as dates: a number of seconds is easily another time than was meant.

use crate::asking::SettingForm;
use crate::target::Target;
use krb_fields::{Name, Second};
use principal_rows::Policy;
use principals::Database;
use std::alloc::Global;
use std::io::Write;
use text_fields::{Setting, UtcDate};

/// Reports the times that a field and its value apart have set, as dates. Ignores a failed write, and says nothing if
/// memory runs out.
pub(crate) fn report_times<E: Write>(
    alloc: Global,
    errors: &mut E,
    database: &Database,
    target: &Target<'_>,
) {
    for asked in &target.settings {
        if asked.form == SettingForm::FieldAndValue {
            report_field(alloc, errors, database, &target.names, asked.field);
        }
    }
}

/// Reports the time in a field of each of these principals.
fn report_field<E: Write>(
    alloc: Global,
    errors: &mut E,
    database: &Database,
    names: &[&str],
    field: &str,
) {
    for name in names {
        if let Some(second) = time_in(alloc, database, name, field) {
            let _ = writeln!(errors, "kadm: {name}: {field} is {}", UtcDate(second));
        }
    }
}

/// Returns the time in a field of a principal, if it has one.
fn time_in(alloc: Global, database: &Database, name: &str, field: &str) -> Option<Second> {
    let Ok(who) = Name::from_text(alloc, name) else {
        return None;
    };
    time_of(database.get(&who)?.policy, field)
}

/// Returns the time in a field of a policy, if it has one.
fn time_of(policy: Policy, field: &str) -> Option<Second> {
    let settings = Setting::all(policy);
    for setting in settings.as_slice() {
        if let Some(time) = time_named(setting, field) {
            return Some(time);
        }
    }
    None
}

/// Returns the time of a setting of this field, if it is one.
fn time_named(setting: &Setting, field: &str) -> Option<Second> {
    match setting {
        Setting::Time(kind, time) if kind.name() == field => *time,
        _ => None,
    }
}
