//! The meaning of a line.
ghost use Rattle.std.specs.Prelude.{◌≡◌, ◌==◌, ◌<◌, ◌≤◌, length, IfSome, IfNone};
ghost use Rattle.std.specs.List.{after_first, before_first, position, position_or_len};
ghost use Rattle.krb5_conf.specs.Line.{line_said, relation_said, said, trimmed, unquoted};

/// The meaning of a line.
#[derive(Clone, Copy)]
pub(crate) enum Line<'a> {
    Nothing,
    /// The start of a section.
    Section(&'a [u8]),
    /// The start of a group.
    Open(&'a [u8]),
    /// A brace on a line of its own: starts the group that the relation before it names.
    Brace,
    /// The end of the last group that was started.
    Close,
    /// A relation: its tag and its value.
    Relation(&'a [u8], &'a [u8]),
}

impl<'a> Line<'a> {
    /// Reads the bytes between two line feeds.
    pub(crate) fn read(text: &'a [u8]) -> Line<'a>
        ensures { said result ≡ line_said text.now }
    {
        let text = trim(text);
        let Some((first, rest)) = text.split_first() else {
            return Line::Nothing;
        };
        match *first {
            b'#' | b';' => Line::Nothing,
            b'[' => Line::Section(trim(before(rest, b']'))),
            b'{' => Line::Brace,
            b'}' => Line::Close,
            _ => relation(text),
        }
    }
}

/// Reads a line in the form of a relation.
fn relation(text: &[u8]) -> Line<'_>
    ensures { said result ≡ relation_said text.now }
{
    let Some((tag, value)) = cut(text, b'=') else {
        return Line::Nothing;
    };
    let tag = trim(tag);
    let value = trim(value);
    if value == b"{".as_slice() {
        Line::Open(tag)
    } else {
        Line::Relation(tag, unquoted(value))
    }
}

/// Returns the text between quotation marks, or the value as it is.
fn unquoted(value: &[u8]) -> &[u8]
    ensures { result.now ≡ unquoted value.now }
{
    match value.split_first() {
        Some((first, rest)) if *first == b'"' => before(rest, b'"'),
        _ => value,
    }
}

/// Returns the bytes without the blanks at both ends.
pub(crate) fn trim(text: &[u8]) -> &[u8]
    ensures { result.now ≡ trimmed text.now }
{
    text.trim_ascii()
}

/// Returns the bytes before the first such byte, or all if there is none.
fn before(text: &[u8], octet: u8) -> &[u8]
    ensures { result.now ≡ before_first (λ o. o == octet) text.now }
{
    match cut(text, octet) {
        Some((before, _)) => before,
        None => text,
    }
}

/// Returns the bytes before the first such byte, and those after it.
fn cut(text: &[u8], octet: u8) -> Option<(&[u8], &[u8])>
    ensures some { IfSome result (λ parts. position_or_len (λ o. o == octet) text.now < length text.now) }
    ensures front { IfSome result (λ parts. parts.0.now ≡ before_first (λ o. o == octet) text.now) }
    ensures back { IfSome result (λ parts. parts.1.now ≡ after_first (λ o. o == octet) text.now) }
    ensures none { IfNone result (length text.now ≤ position_or_len (λ o. o == octet) text.now) }
{
    let place = find_octet(text, octet)?;
    Some((&text[..place], &text[place + 1..]))
}

/// Returns the index of the first such byte.
fn find_octet(text: &[u8], octet: u8) -> Option<usize>
    ensures { result ≡ position (λ o. o == octet) text.now }
{
    text.iter().position(|o| *o == octet)
}
