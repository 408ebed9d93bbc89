//! The names of principals as MIT writes them: components separated by `/`, then `@` and the realm. A backslash stands
//! before `/`, `@` and `\`, and with `n`, `t`, `b` or `0` for a line feed, a tab, a backspace or a zero byte.
ghost use Rattle.std.specs.Prelude.{◌≡◌, ◌++◌, IfOk, OnOk};
ghost use Rattle.std.specs.List.{flat_map};
ghost use Rattle.mit_dump.specs.NameText.{component_part, component_text, components_text, full_text, letter_of};
ghost use Rattle.mit_dump.specs.NameText.{octet_text};

use crate::fault::Cause;
use krb_elements::{KerberosString, Seq};
use krb_fields::Name;
use krb_fields::numbers::NT_PRINCIPAL;
use std::alloc::{AllocError, Global};

/// A name with its realm.
#[derive(Drop)]
pub(crate) struct FullName {
    /// Its components, with the escapes resolved. The text has no name-type: it is NT-PRINCIPAL.
    pub name: Name,
    /// What follows the `@`, with the escapes resolved.
    pub realm: KerberosString,
}

/// What follows a component.
#[derive(Clone, Copy, PartialEq, Eq)]
enum Separator {
    Component,
    Realm,
    End,
}

/// A component, what follows it, and the text after that.
#[derive(Drop)]
struct SplitComponent<'a> {
    octets: Vec<u8>,
    separator: Separator,
    behind: &'a [u8],
}

/// Reads a name that is written exactly as MIT writes it.
pub(crate) fn read_full_name(alloc: Global, text: &[u8]) -> Result<FullName, Cause>
    ensures { IfOk result (λ full. full_text full.name.components full.realm ≡ text.now) }
{
    let full = split_name(alloc, text)?;
    let written = written_name(alloc, &full)?;
    if written.as_slice() == text {
        Ok(full)
    } else {
        Err(Cause::Name)
    }
}

/// Splits a text into components and realm.
fn split_name(alloc: Global, text: &[u8]) -> Result<FullName, Cause> {
    let mut components = Seq::new(alloc);
    let mut rest = text;
    for _ in 0..text.len() {
        let SplitComponent {
            octets,
            separator,
            behind,
        } = split_component(alloc, rest)?;
        components.push(KerberosString::new(octets))?;
        match separator {
            Separator::Component => rest = behind,
            Separator::Realm => return with_realm(alloc, components, behind),
            Separator::End => return Err(Cause::Name),
        }
    }
    Err(Cause::Name)
}

/// Returns the name with the realm in the rest of a text.
fn with_realm(
    alloc: Global,
    components: Seq<KerberosString>,
    text: &[u8],
) -> Result<FullName, Cause> {
    let SplitComponent {
        octets,
        separator,
        ..
    } = split_component(alloc, text)?;
    if separator != Separator::End {
        return Err(Cause::Name);
    }
    Ok(FullName {
        name: Name {
            name_type: NT_PRINCIPAL,
            components,
        },
        realm: KerberosString::new(octets),
    })
}

/// Splits the first component off a text.
fn split_component(alloc: Global, text: &[u8]) -> Result<SplitComponent<'_>, Cause> {
    let mut octets = Vec::new(alloc);
    let mut rest = text;
    while let [first, behind @ ..] = rest {
        let separator = separator_of(*first);
        if separator != Separator::End {
            return Ok(SplitComponent {
                octets,
                separator,
                behind,
            });
        }
        rest = behind;
        if *first != b'\\' {
            octets.push(*first)?;
            continue;
        }
        let [letter, behind @ ..] = rest else {
            return Err(Cause::Name);
        };
        octets.push(octet_of(*letter))?;
        rest = behind;
    }
    Ok(SplitComponent {
        octets,
        separator: Separator::End,
        behind: rest,
    })
}

/// Returns what a byte begins, or `End` if it belongs to its component.
fn separator_of(octet: u8) -> Separator {
    match octet {
        b'/' => Separator::Component,
        b'@' => Separator::Realm,
        _ => Separator::End,
    }
}

/// Returns the byte for which a letter stands after a backslash.
fn octet_of(letter: u8) -> u8 {
    match letter {
        b'n' => b'\n',
        b't' => b'\t',
        b'b' => 8,
        b'0' => 0,
        _ => letter,
    }
}

/// Returns the text of a name.
fn written_name(alloc: Global, full: &FullName) -> Result<Vec<u8>, AllocError>
    ensures { IfOk result (λ text. text.items ≡ full_text full.now.name.components full.now.realm) }
{
    let mut text = Vec::new(alloc);
    push_components(&mut text, full.name.components.as_slice())?;
    text.push(b'@')?;
    push_component(&mut text, full.realm.as_slice())?;
    Ok(text)
}

/// Appends the text of components.
fn push_components(text: &mut Vec<u8>, components: &[KerberosString]) -> Result<(), AllocError>
    ensures { OnOk result (text.new.items ≡ text.old.items ++ components_text components.now) }
{
    let Some((first, others)) = components.split_first() else {
        return Ok(());
    };
    push_component(text, first.as_slice())?;
    push_others(text, others)
}

/// Appends the text of components, each after a slash.
fn push_others(text: &mut Vec<u8>, others: &[KerberosString]) -> Result<(), AllocError>
    ensures { OnOk result (text.new.items ≡ text.old.items ++ flat_map component_part others.now) }
{
    for other in others {
        push_part(text, other.as_slice())?;
    }
    Ok(())
}

/// Appends a slash, and the text of a component.
fn push_part(text: &mut Vec<u8>, octets: &[u8]) -> Result<(), AllocError>
    ensures { OnOk result (text.new.items ≡ text.old.items ++ component_part octets.now) }
{
    text.push(b'/')?;
    push_component(text, octets)
}

/// Appends the text of a component or a realm.
fn push_component(text: &mut Vec<u8>, octets: &[u8]) -> Result<(), AllocError>
    ensures { OnOk result (text.new.items ≡ text.old.items ++ component_text octets.now) }
{
    for octet in octets {
        push_octet(text, *octet)?;
    }
    Ok(())
}

fn push_octet(text: &mut Vec<u8>, octet: u8) -> Result<(), AllocError>
    ensures { OnOk result (text.new.items ≡ text.old.items ++ octet_text octet) }
{
    match letter_of(octet) {
        Some(letter) => {
            text.push(b'\\')?;
            text.push(letter)?;
        }
        None => text.push(octet)?,
    }
    Ok(())
}

/// Returns the letter that stands after a backslash for a byte, if one does.
fn letter_of(octet: u8) -> Option<u8>
    ensures { result ≡ letter_of octet }
{
    match octet {
        b'/' | b'@' | b'\\' => Some(octet),
        b'\n' => Some(b'n'),
        b'\t' => Some(b't'),
        8 => Some(b'b'),
        0 => Some(b'0'),
        _ => None,
    }
}
