//! What a journal begins with.
ghost use Rattle.std.specs.Prelude.{◌≡◌, is_some, option_map, drop};
ghost use Rattle.journal.specs.Head.{behind_length, behind_tag, head_of, may_be_journal, more_octets};

/// The tags at the front of a journal: those of an OCTET STRING, of the SEQUENCE in it, of that one's first field, and
/// of an OCTET STRING again.
const STRING: u8 = 0x04;

const SEQUENCE: u8 = 0x30;

const FIRST_FIELD: u8 = 0xa0;

/// The number of bytes at the front by which [`may_be_journal`] decides.
pub const HEAD: usize = 24;

/// Checks whether a text may be a journal, or the front of one, by its first tags. A journal that was cut or changed
/// behind them may be one. Files of another kind hardly ever are.
pub fn may_be_journal(text: &[u8]) -> bool
    // Promise: **no journal is taken for another file**: a journal that was cut anywhere still has the first tags by
    // which a start sees that it may touch a file.
    ensures { result ≡ may_be_journal text.now }
{
    after_head(text).is_some()
}

/// Returns what follows the first tags of a journal, or `None` if the text has other ones.
fn after_head(text: &[u8]) -> Option<&[u8]>
    ensures { option_map (λ rest. rest.now) result ≡ head_of text.now }
{
    let string = behind_tag(STRING, text)?;
    let sequence = behind_tag(SEQUENCE, string)?;
    let field = behind_tag(FIRST_FIELD, sequence)?;
    behind_tag(STRING, field)
}

/// Returns what follows a tag and a length, as far as the text goes.
fn behind_tag(tag: u8, text: &[u8]) -> Option<&[u8]>
    ensures { option_map (λ rest. rest.now) result ≡ behind_tag tag text.now }
{
    match text {
        [] => Some(text),
        [first, rest @ ..] => {
            if *first == tag {
                behind_length(rest)
            } else {
                None
            }
        }
    }
}

/// Returns what follows a length (X.690, section 8.1.3), as far as the text goes.
fn behind_length(text: &[u8]) -> Option<&[u8]>
    ensures { option_map (λ rest. rest.now) result ≡ behind_length text.now }
{
    match text {
        [] => Some(text),
        [first, rest @ ..] => {
            let count = more_octets(*first)?;
            Some(behind(rest, count))
        }
    }
}

/// Returns how many bytes of a length follow its first one: at most four.
fn more_octets(first: u8) -> Option<usize>
    ensures { result ≡ more_octets first }
{
    match first {
        0..128 => Some(0),
        129 => Some(1),
        130 => Some(2),
        131 => Some(3),
        132 => Some(4),
        _ => None,
    }
}

fn behind(text: &[u8], count: usize) -> &[u8]
    ensures { result.now ≡ drop count text.now }
{
    match text.get(count..) {
        Some(rest) => rest,
        None => &[],
    }
}
