//! The settings of a policy that the words of a command line ask for.
ghost use Rattle.std.specs.Prelude.{◌≡◌, ◌++◌, [], IfOk, OnOk, option_map, unwrap_or};
ghost use Rattle.kadm_changes.specs.Asking.{all_asked, asked_of};
ghost use Rattle.kadm_changes.specs.Texts.{texts};
ghost use Rattle.kadm.specs.Assigning.{assigned, setting_at, settings_of};
ghost use Rattle.kadm.specs.Values.{listed, value_of};

use crate::values::{has_flag, option_value};
use command_line::value_at;
use kadm_changes::{AskedSetting, SettingForm};
use std::alloc::{AllocError, Global};

/// The option that accepts a time that is past.
const PAST: &str = "--past";

/// Returns the option that names the field of a setting.
pub(crate) fn field_option(form: SettingForm) -> &'static str {
    match form {
        SettingForm::Set => "--set",
        SettingForm::FieldAndValue => "--field",
        SettingForm::Expires => "--expires",
        SettingForm::Disabled => "--disabled",
    }
}

/// Returns the option that has the value of a setting.
pub(crate) fn value_option(form: SettingForm) -> &'static str {
    match form {
        SettingForm::FieldAndValue => "--value",
        form => field_option(form),
    }
}

/// Returns the settings that words ask for, in their order.
pub(crate) fn read_settings<'a>(
    alloc: Global,
    words: &[&'a str],
) -> Result<Vec<AskedSetting<'a>>, AllocError>
    // Promise, as read_command: the command is read ..
    ensures { IfOk result (λ settings. all_asked settings.items ≡ settings_of (texts words.now)) }
{
    let mut settings = Vec::new(alloc);
    let mut rest = words;
    while let [word, others @ ..] = rest {
        let setting = setting_at(words, word, others);
        push_setting(&mut settings, setting)?;
        rest = others;
    }
    Ok(settings)
}

/// Adds a setting, if there is one.
fn push_setting<'a>(
    settings: &mut Vec<AskedSetting<'a>>,
    setting: Option<AskedSetting<'a>>,
) -> Result<(), AllocError>
    ensures { OnOk result (all_asked settings.new.items
        ≡ all_asked settings.old.items ++ listed (option_map asked_of setting.entry)) }
{
    if let Some(setting) = setting {
        settings.push(setting)?;
    }
    Ok(())
}

/// Returns the setting that begins at a word of a command line, if one does.
pub(crate) fn setting_at<'a>(
    words: &[&'a str],
    word: &'a str,
    others: &[&'a str],
) -> Option<AskedSetting<'a>>
    // Promise, as read_command: the command is read ..
    ensures { option_map asked_of result ≡ setting_at (texts words.now) word.now (texts others.now) }
{
    if let Some(text) = value_at("--set", word, others) {
        return Some(assigned(text, !has_flag(words, PAST)));
    }
    if let Some(field) = value_at("--field", word, others) {
        return Some(AskedSetting {
            form: SettingForm::FieldAndValue,
            field,
            value: value_or_empty(words, "--value"),
            ahead: false,
        });
    }
    if let Some(value) = value_at("--expires", word, others) {
        return Some(AskedSetting {
            form: SettingForm::Expires,
            field: "expires",
            value,
            ahead: !has_flag(words, PAST),
        });
    }
    if word == "--disabled" {
        return Some(AskedSetting {
            form: SettingForm::Disabled,
            field: "disabled",
            value: "true",
            ahead: false,
        });
    }
    None
}

/// Splits `FIELD=VALUE`. Without an equals sign the value is empty, which no field accepts.
fn assigned(text: &str, ahead: bool) -> AskedSetting<'_>
    ensures { asked_of result ≡ record { field = (assigned text.now).0; value = (assigned text.now).1; ahead = ahead } }
{
    match text.split_once('=') {
        Some((field, value)) => AskedSetting {
            form: SettingForm::Set,
            field,
            value,
            ahead,
        },
        None => AskedSetting {
            form: SettingForm::Set,
            field: text,
            value: "",
            ahead,
        },
    }
}

fn value_or_empty<'a>(words: &[&'a str], option: &str) -> &'a str
    ensures { result.now ≡ unwrap_or (value_of (texts words.now) option.now) [] }
{
    match option_value(words, option) {
        Some(value) => value,
        None => "",
    }
}
