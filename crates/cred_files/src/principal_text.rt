//! The text of principals, for messages: `alice@EXAMPLE.COM`.
use crate::Principal;
use std::fmt;

/// Writes the name, `@` and the realm. Both are spelled as in the text of a name: bytes that are not written as they
/// are become `\` and two lowercase hexadecimal digits. So no two principals share a text.
impl fmt::Display for Principal {
    fn fmt<W: fmt::Write>(&self, f: &mut fmt::Formatter<W>) -> fmt::Result {
        for (i, component) in self.name.components.as_slice().iter().enumerate() {
            if i > 0 {
                f.write_char('/')?;
            }
            write_component(f, component.as_slice())?;
        }
        f.write_char('@')?;
        write_component(f, self.realm.as_slice())
    }
}

fn write_component<W: fmt::Write>(f: &mut fmt::Formatter<W>, octets: &[u8]) -> fmt::Result {
    for octet in octets {
        write_octet(f, *octet)?;
    }
    Ok(())
}

fn write_octet<W: fmt::Write>(f: &mut fmt::Formatter<W>, octet: u8) -> fmt::Result {
    if octet.is_ascii_graphic() && !matches!(octet, b'/' | b'\\' | b'@') {
        f.write_char(char::from(octet))
    } else {
        write!(f, "\\{octet:02x}")
    }
}
