//! The sender's address in the log.
ghost use Rattle.std.specs.Prelude.{◌≡◌, ◌++◌, ◌∷◌, [], List, OnOk};
ghost use Rattle.std.specs.Net.Text.{socket_v4_text, socket_v6_text};
ghost use Rattle.request_log.specs.Entry.{peer_text};
ghost use Rattle.request_log.specs.Field.{Field, field};
ghost use Rattle.request_log.specs.declared.field.FieldName.TheVariants as names;

use crate::field::{FieldName, FieldWriter};
use crate::names::ABSENT;
use crate::values::{USUAL_VALUE, push_number, set_bytes};
use std::alloc::{AllocError, Global};
use std::net::{SocketAddr, SocketAddrV4, SocketAddrV6};

/// Writes the address and its port, or a dash if they are not known.
pub(crate) fn put_peer<W: FieldWriter>(
    line: &mut W,
    alloc: Global,
    value: &mut Vec<u8>,
    peer: Option<SocketAddr>,
) -> Result<(), AllocError>
    ensures { (fields : List Field) → W.Holds line.old fields
        → OnOk result (W.Holds line.new (fields ++ field names.Peer (peer_text peer) ∷ [])) }
{
    set_peer(value, alloc, peer)?;
    line.put(alloc, FieldName::Peer, value)
}

fn set_peer(value: &mut Vec<u8>, alloc: Global, peer: Option<SocketAddr>) -> Result<(), AllocError>
    ensures { OnOk result (value.new.items ≡ peer_text peer) }
{
    match peer {
        Some(SocketAddr::V4(peer)) => set_v4(value, peer),
        Some(SocketAddr::V6(peer)) => set_v6(value, alloc, peer),
        None => set_bytes(value, ABSENT),
    }
}

fn set_v6(value: &mut Vec<u8>, alloc: Global, peer: SocketAddrV6) -> Result<(), AllocError>
    ensures { OnOk result (value.new.items ≡ socket_v6_text peer) }
{
    let mut text = String::with_capacity(alloc, USUAL_VALUE)?;
    write!(text, "{peer}")?;
    set_bytes(value, text.as_bytes())
}

/// Writes an IPv4 address and its port. `Display` takes three times as many instructions.
fn set_v4(value: &mut Vec<u8>, peer: SocketAddrV4) -> Result<(), AllocError>
    ensures { OnOk result (value.new.items ≡ socket_v4_text peer) }
{
    let [a, b, c, d] = peer.ip().octets();
    value.clear();
    push_number(value, a.into())?;
    value.push(b'.')?;
    push_number(value, b.into())?;
    value.push(b'.')?;
    push_number(value, c.into())?;
    value.push(b'.')?;
    push_number(value, d.into())?;
    value.push(b':')?;
    push_number(value, peer.port().into())
}
