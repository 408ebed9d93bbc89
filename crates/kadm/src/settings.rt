//! Which settings of a policy the words of a command line ask for, and which values a field accepts.
ghost use Rattle.std.specs.Prelude.{◌≡◌};
ghost use Rattle.kadm_changes.specs.Texts.{texts};
ghost use Rattle.kadm.specs.Words.{sets_some};

use crate::assigning::setting_at;
use crate::words::is_given;
use kadm_changes::AskedSetting;
use text_fields::{FieldKind, field_kind, parse_setting, setting_from};

const FLAGS: &str = "true or false";

const LIVES: &str = "seconds (36000), or a number followed by s, m, h or d (10h, 7d)";

const TIMES: &str = "\
a date (2027-01-01, 2027-01-01T12:00:00Z), a second since 1970, a time from now (10h, 7d) or never";

/// Returns what the field with this name accepts. `None` if a policy has no such field.
pub(crate) fn accepted_by(field: &str) -> Option<&'static str> {
    Some(match field_kind(field)? {
        FieldKind::Flag => FLAGS,
        FieldKind::Life => LIVES,
        FieldKind::Time => TIMES,
    })
}

/// Checks whether the words ask for a setting, and have neither `--field` nor `--value` alone.
pub(crate) fn sets_some(words: &[&str]) -> bool
    // Promise, as has_flag: whether keys are added, ..
    ensures { result ≡ sets_some (texts words.now) }
{
    if is_given(words, "--field") {
        return is_given(words, "--value");
    }
    !is_given(words, "--value") && is_given(words, "--set")
}

/// Returns the first setting that the words ask for and its field does not accept.
pub(crate) fn invalid_setting<'a>(words: &[&'a str]) -> Option<AskedSetting<'a>> {
    let mut rest = words;
    while let [word, others @ ..] = rest {
        if let Some(setting) = setting_at(words, word, others)
            && parse_setting(setting.field, setting.value).is_none()
            && setting_from(setting.field, setting.value, 0).is_none()
        {
            return Some(setting);
        }
        rest = others;
    }
    None
}
