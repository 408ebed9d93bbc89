//! What comes next in a text.
ghost use Rattle.std.specs.Prelude.{◌≡◌, ◌∷◌, IsTrue, Some, None};
ghost use Rattle.json.specs.Json.{read_key};
ghost use Rattle.json.specs.Token.{Token as SpecToken, begin_object, number};
ghost use Rattle.text_fields.specs.Settings.{newest_version_text};

use json::{Reader, Token};
use text_fields::NEWEST_VERSION_TEXT;

/// Checks whether an object begins.
pub(crate) fn takes_object(reader: &mut Reader<'_>) -> bool
    ensures { IsTrue result → reader.old ≡ begin_object ∷ reader.new }
{
    matches!(reader.next(), Some(Token::BeginObject))
}

/// Checks whether a member with this name comes next.
pub(crate) fn takes_key(reader: &mut Reader<'_>, name: &str) -> bool
    ensures { IsTrue result → read_key reader.old ≡ Some (Some name.now, reader.new) }
{
    match reader.next_key() {
        Ok(Some(key)) => key == name,
        _ => false,
    }
}

/// Checks whether the object ends.
pub(crate) fn takes_end(reader: &mut Reader<'_>) -> bool
    ensures { IsTrue result → read_key reader.old ≡ Some (None, reader.new) }
{
    matches!(reader.next_key(), Ok(None))
}

/// Checks whether the number of the newest version comes next.
pub(crate) fn takes_version(reader: &mut Reader<'_>) -> bool
    ensures { IsTrue result → reader.old ≡ number newest_version_text ∷ reader.new }
{
    match reader.next() {
        Some(Token::Number(text)) => text == NEWEST_VERSION_TEXT,
        _ => false,
    }
}
