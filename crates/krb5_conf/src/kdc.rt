//! The texts that name KDCs.
ghost use Rattle.std.specs.Prelude.{◌≡◌, ◌++◌, ◌∷◌, [], map, IfOk, IfSome, IfNone, OnOk};
ghost use Rattle.std.specs.declared.net.socket_addr.SocketAddr as addresses;
ghost use Rattle.krb5_conf.specs.Kdc.{IsKdcText, is_kdc_text, is_other_way, kdc_texts};

use std::alloc::{AllocError, Global};
use std::net::SocketAddr;

/// Returns the texts except those that are empty, or name a transport other than plain UDP and TCP.
pub(crate) fn plain_texts<'a>(
    alloc: Global,
    texts: &[&'a [u8]],
) -> Result<Vec<&'a [u8]>, AllocError>
    ensures { IfOk result (λ plain. map (λ text. text.now) plain.items ≡ kdc_texts (map (λ text. text.now) texts.now)) }
{
    let mut plain = Vec::new(alloc);
    for text in texts {
        push_plain(&mut plain, text)?;
    }
    Ok(plain)
}

/// Appends a text, unless it is empty or names a transport.
fn push_plain<'a>(plain: &mut Vec<&'a [u8]>, text: &'a [u8]) -> Result<(), AllocError>
    ensures { OnOk result (
        map (λ t. t.now) plain.new.items ≡ map (λ t. t.now) plain.old.items ++ kdc_texts (text.now ∷ [])) }
{
    if is_kdc_text(text) {
        plain.push(text)?;
    }
    Ok(())
}

fn is_kdc_text(text: &[u8]) -> bool
    ensures { result ≡ is_kdc_text text.now }
{
    match text.split_first() {
        Some(_) => !is_other_way(text),
        None => false,
    }
}

/// Checks whether a text names a transport, such as `tcp/192.0.2.1` or `https://kdc.example.com/KdcProxy`.
fn is_other_way(text: &[u8]) -> bool
    ensures { result ≡ is_other_way text.now }
{
    text.contains(&b'/')
}

/// Returns the address in a text, such as `192.0.2.1`, `192.0.2.1:88` or `[2001:db8::1]:88`. The default port is 88.
/// `None` if the text is not an address, such as a host name.
pub fn kdc_address(alloc: Global, text: &[u8]) -> Result<Option<SocketAddr>, AllocError>
    // Promise (some, none): a text is read as an address exactly if it spells one; the port is 88 if it is missing.
    ensures some { IfOk result (λ found. IfSome found (λ address. IsKdcText text.now address)) }
    ensures none { IfOk result (λ found.
        IfNone found ((address : addresses.SocketAddr) → ¬ IsKdcText text.now address)) }
{
    if let Ok(address) = SocketAddr::parse_ascii(text) {
        return Ok(Some(address));
    }
    let mut full = Vec::from_slice(alloc, text)?;
    full.extend_from_slice(b":88")?;
    Ok(SocketAddr::parse_ascii(&full).ok())
}
