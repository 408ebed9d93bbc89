//! Writes a name of a request into another message, without copying it first.
ghost use Rattle.std.specs.Prelude.{◌≡◌, ◌<◌, ◌^◌, ◌++◌, length, OnOk};
ghost use Rattle.krb_elements.specs.Codec.{list_of, string};
ghost use Rattle.krb_elements.specs.CodecLaws.{AllFit};
ghost use Rattle.krb_elements.specs.Continues.{Continues};
ghost use Rattle.krb_elements.specs.Written.{items_text};

use krb_der::Writer;
use krb_elements::{Coded, Encode, KerberosStringRef, SeqRef};
use krb_fields::{Name, NameRef};
use std::alloc::AllocError;
use std::marker::Model;

/// The components of a name in a request, as they are written into another message.
#[derive(Drop)]
pub(crate) struct SentComponents<'a> {
    components: SeqRef<'a, KerberosStringRef<'a>>,
}

impl<'a> Model for SentComponents<'a> {
    ghost use Rattle.std.specs.Prelude.{List, ℕ};

    ghost Value = { List (List ℕ) };

    ghost view = { λ s. s.components };
}

/// Returns the name in a form that can be written again.
pub(crate) fn sent_name<'a>(name: &NameRef<'a>) -> Name<SentComponents<'a>>
    ensures { result ≡ name.now }
{
    Name {
        name_type: name.name_type,
        components: SentComponents {
            components: name.components.iter(),
        },
    }
}

impl<'a> Coded for SentComponents<'a> {
    ghost codec = { list_of string };
}

impl<'a> Encode for SentComponents<'a> {
    fn put(&self, out: &mut Writer) -> Result<(), AllocError> {
        let start = out.len();
        out.begin(0x30)?;
        put_components(out, &self.components)?;
        out.end(start)
    }
}

/// Appends the components in order.
fn put_components<'a>(
    out: &mut Writer,
    components: &SeqRef<'a, KerberosStringRef<'a>>,
) -> Result<(), AllocError>
    requires { length (items_text string.tag string.text components.now) < 2 ^ 32 }
    ensures ok { OnOk result (out.new ≡ out.old ++ items_text string.tag string.text components.now) }
    ensures fits { OnOk result (AllFit string.Fits components.now) }
    ensures kept { Continues out.old out.new }
{
    for component in components.iter() {
        component.put(out)?;
    }
    Ok(())
}
