//! Authenticator (RFC 4120, section 5.5.1).
ghost use Rattle.std.specs.Prelude.{◌≡◌, ◌<◌, ◌^◌, length, IfOk, OnOk, option_map};
ghost use Rattle.krb_elements.specs.Codec.{itself, written};
ghost use Rattle.krb_elements.specs.Format.{Decodes, IsReadUnlessMemory, whole};
ghost use Rattle.krb_types.specs.Authenticator.{authenticator_of, authenticator_form, authenticator};
ghost use Rattle.krb_types.specs.Authenticator as trees;

use krb_der::{DerFault, KTime, Reader, Writer};
use krb_elements::{
    Application, Coded, Decode, DecodeFields, Encode, EncodeFields, Fault, Fielded, KerberosString,
    KerberosStringRef, MakeOwned, Microseconds, ReadOwned, Seq, SeqRef, UInt32, read, read_owned,
    take_field, take_fixed, take_optional, write, write_field, write_optional,
};
use krb_fields::numbers::{AUTHENTICATOR, PVNO};
use krb_fields::{Name, NameRef, Typed, TypedRef};
use std::alloc::{AllocError, Global};

/// What a client encrypts with a session key, to prove that it has the key now.
#[derive(Debug, Drop)]
pub struct Authenticator<S = KerberosString, N = Name, T = Typed, L = Seq<Typed>> {
    /// The client's realm, as in the ticket.
    pub crealm: S,
    /// The client's name, as in the ticket.
    pub cname: N,
    /// A checksum over the data that the authenticator comes with.
    pub cksum: Option<T>,
    /// The microseconds of the client's time, 0 to 999999.
    pub cusec: Microseconds,
    /// The client's time, in whole seconds.
    pub ctime: KTime,
    /// The key that the client chose for the rest of the connection.
    pub subkey: Option<T>,
    /// The sequence number at which the client's KRB-SAFE and KRB-PRIV messages start, if it uses one.
    pub seq_number: Option<UInt32>,
    /// Restrictions on the use of the ticket, beyond those in the ticket itself.
    pub authorization_data: Option<L>,
}

/// A borrowed [`Authenticator`].
pub type AuthenticatorRef<'a> = Authenticator<
    KerberosStringRef<'a>,
    NameRef<'a>,
    TypedRef<'a>,
    SeqRef<'a, TypedRef<'a>>,
>;

impl<S: Coded, N: Coded, T: Coded, L: Coded> Coded for Authenticator<S, N, T, L> {
    ghost codec = { authenticator_of S.codec N.codec T.codec L.codec };
}

impl<S: Coded, N: Coded, T: Coded, L: Coded> Fielded for Authenticator<S, N, T, L> {
    type In = Application<AUTHENTICATOR>;

    ghost form = { authenticator_form S.codec N.codec T.codec L.codec };

    ghost made = { itself };
}

impl<'a, S: Decode<'a>, N: Decode<'a>, T: Decode<'a>, L: Decode<'a>> DecodeFields<'a>
    for Authenticator<S, N, T, L> {
    #[tactic(auto, unfolding(crate::specs::Authenticator::authenticator_form))]
    fn look_fields(fields: &mut Reader<'a>) -> Result<Authenticator<S, N, T, L>, DerFault> {
        take_fixed(fields, 0, PVNO)?;
        Ok(Authenticator {
            crealm: take_field(fields, 1)?,
            cname: take_field(fields, 2)?,
            cksum: take_optional(fields, 3)?,
            cusec: take_field(fields, 4)?,
            ctime: take_field(fields, 5)?,
            subkey: take_optional(fields, 6)?,
            seq_number: take_optional(fields, 7)?,
            authorization_data: take_optional(fields, 8)?,
        })
    }
}

impl<S: Encode, N: Encode, T: Encode, L: Encode> EncodeFields for Authenticator<S, N, T, L> {
    #[tactic(auto, unfolding(crate::specs::Authenticator::authenticator_form))]
    fn put_fields(&self, out: &mut Writer) -> Result<(), AllocError> {
        write_field(out, 0, &PVNO)?;
        write_field(out, 1, &self.crealm)?;
        write_field(out, 2, &self.cname)?;
        write_optional(out, 3, &self.cksum)?;
        write_field(out, 4, &self.cusec)?;
        write_field(out, 5, &self.ctime)?;
        write_optional(out, 6, &self.subkey)?;
        write_optional(out, 7, &self.seq_number)?;
        write_optional(out, 8, &self.authorization_data)
    }
}

impl<S: MakeOwned, N: MakeOwned, T: MakeOwned, L: MakeOwned> MakeOwned
    for Authenticator<S, N, T, L> {
    type Owned = Authenticator<S::Owned, N::Owned, T::Owned, L::Owned>;

    ghost same = { λ x. record {
      crealm = S.same x.crealm;
      cname = N.same x.cname;
      cksum = option_map T.same x.cksum;
      cusec = x.cusec;
      ctime = x.ctime;
      subkey = option_map T.same x.subkey;
      seq_number = x.seq_number;
      authorization_data = option_map L.same x.authorization_data;
    } };

    fn copy(
        &self,
        alloc: Global,
    ) -> Result<Authenticator<S::Owned, N::Owned, T::Owned, L::Owned>, AllocError> {
        Ok(Authenticator {
            crealm: self.crealm.copy(alloc)?,
            cname: self.cname.copy(alloc)?,
            cksum: self.cksum.copy(alloc)?,
            cusec: self.cusec,
            ctime: self.ctime,
            subkey: self.subkey.copy(alloc)?,
            seq_number: self.seq_number,
            authorization_data: self.authorization_data.copy(alloc)?,
        })
    }
}

fn copied(alloc: Global, found: &AuthenticatorRef<'_>) -> Result<Authenticator, AllocError>
    ensures { IfOk result (λ copy. copy ≡ found.now) }
{
    found.copy(alloc)
}

impl ReadOwned for Authenticator {
    fn read_parts(alloc: Global, bytes: &[u8]) -> Result<Authenticator, Fault> {
        let found: AuthenticatorRef<'_> = read(bytes)?;
        Ok(copied(alloc, &found)?)
    }
}

/// Reads the Authenticator that the bytes encode.
pub fn decode_authenticator(alloc: Global, bytes: &[u8]) -> Result<Authenticator, Fault>
    // Promise (found, only, exact), as decode_enc_ticket_part: EncTicketPart, Authenticator, EncAPRepPart and ..
    ensures found { IfOk result (λ x. authenticator.Spells x bytes.now) }
    ensures only { (x : trees.Authenticator) → authenticator.Spells x bytes.now → IsReadUnlessMemory result x }
    ensures exact { Decodes result (whole authenticator.at bytes.now) }
{
    read_owned(alloc, bytes)
}

/// Returns the encoding of the Authenticator.
pub fn encode_authenticator(alloc: Global, part: &Authenticator) -> Result<Vec<u8>, AllocError>
    requires { length (authenticator.text part.now) < 2 ^ 32 }
    // Promise (written, spelled), as encode_enc_ticket_part: each of these parts ..
    ensures written { IfOk result (λ v. v.items ≡ written authenticator part.now) }
    ensures spelled { IfOk result (λ v. authenticator.Spells part.now v.items) }
{
    write(alloc, part)
}
