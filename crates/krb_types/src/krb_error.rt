//! KRB-ERROR (RFC 4120, section 5.9.1).
ghost use Rattle.std.specs.Prelude.{◌≡◌, ◌<◌, ◌^◌, length, IfOk, OnOk, option_map};
ghost use Rattle.krb_elements.specs.Codec.{itself, written};
ghost use Rattle.krb_elements.specs.Format.{Decodes, IsReadUnlessMemory, whole};
ghost use Rattle.krb_types.specs.KrbError.{krb_error, krb_error_of, krb_error_form};
ghost use Rattle.krb_types.specs.KrbError as trees;

use krb_der::{DerFault, KTime, Reader, Writer};
use krb_elements::{
    Application, Coded, Decode, DecodeFields, Encode, EncodeFields, Fault, Fielded, KerberosString,
    KerberosStringRef, MakeOwned, Microseconds, Octets, OctetsRef, ReadOwned, read, read_owned,
    take_field, take_fixed, take_optional, write, write_field, write_optional,
};
use krb_fields::numbers::{KRB_ERROR, PVNO};
use krb_fields::{Name, NameRef};
use std::alloc::{AllocError, Global};

/// The message type, as a field value.
const MSG_TYPE: i32 = KRB_ERROR as i32;

/// The refusal of a KDC or a service. The version and the message type are fixed, so they are not stored.
#[derive(Debug, Drop)]
pub struct KrbError<S = KerberosString, N = Name, O = Octets> {
    /// The client's time, in whole seconds, if the server knows it.
    pub ctime: Option<KTime>,
    /// The microseconds of the client's time, 0 to 999999.
    pub cusec: Option<Microseconds>,
    /// The server's time, in whole seconds.
    pub stime: KTime,
    /// The microseconds of the server's time, 0 to 999999.
    pub susec: Microseconds,
    /// The error code (RFC 4120, section 7.5.9).
    pub error_code: i32,
    /// The client's realm, if the server gives it.
    pub crealm: Option<S>,
    /// The client's name, if the server gives it.
    pub cname: Option<N>,
    /// The realm of the service.
    pub realm: S,
    /// The name of the service.
    pub sname: N,
    /// A text about the error, for human readers.
    pub e_text: Option<S>,
    /// More about the error, such as the METHOD-DATA of KDC_ERR_PREAUTH_REQUIRED.
    pub e_data: Option<O>,
}

/// A borrowed [`KrbError`].
pub type KrbErrorRef<'a> = KrbError<KerberosStringRef<'a>, NameRef<'a>, OctetsRef<'a>>;

impl<S: Coded, N: Coded, O: Coded> Coded for KrbError<S, N, O> {
    ghost codec = { krb_error_of S.codec N.codec O.codec };
}

impl<S: Coded, N: Coded, O: Coded> Fielded for KrbError<S, N, O> {
    type In = Application<KRB_ERROR>;

    ghost form = { krb_error_form S.codec N.codec O.codec };

    ghost made = { itself };
}

impl<'a, S: Decode<'a>, N: Decode<'a>, O: Decode<'a>> DecodeFields<'a> for KrbError<S, N, O> {
    #[tactic(auto, unfolding(crate::specs::KrbError::krb_error_form))]
    fn look_fields(fields: &mut Reader<'a>) -> Result<KrbError<S, N, O>, DerFault> {
        take_fixed(fields, 0, PVNO)?;
        take_fixed(fields, 1, MSG_TYPE)?;
        Ok(KrbError {
            ctime: take_optional(fields, 2)?,
            cusec: take_optional(fields, 3)?,
            stime: take_field(fields, 4)?,
            susec: take_field(fields, 5)?,
            error_code: take_field(fields, 6)?,
            crealm: take_optional(fields, 7)?,
            cname: take_optional(fields, 8)?,
            realm: take_field(fields, 9)?,
            sname: take_field(fields, 10)?,
            e_text: take_optional(fields, 11)?,
            e_data: take_optional(fields, 12)?,
        })
    }
}

impl<S: Encode, N: Encode, O: Encode> EncodeFields for KrbError<S, N, O> {
    #[tactic(auto, unfolding(crate::specs::KrbError::krb_error_form))]
    fn put_fields(&self, out: &mut Writer) -> Result<(), AllocError> {
        write_field(out, 0, &PVNO)?;
        write_field(out, 1, &MSG_TYPE)?;
        write_optional(out, 2, &self.ctime)?;
        write_optional(out, 3, &self.cusec)?;
        write_field(out, 4, &self.stime)?;
        write_field(out, 5, &self.susec)?;
        write_field(out, 6, &self.error_code)?;
        write_optional(out, 7, &self.crealm)?;
        write_optional(out, 8, &self.cname)?;
        write_field(out, 9, &self.realm)?;
        write_field(out, 10, &self.sname)?;
        write_optional(out, 11, &self.e_text)?;
        write_optional(out, 12, &self.e_data)
    }
}

impl<S: MakeOwned, N: MakeOwned, O: MakeOwned> MakeOwned for KrbError<S, N, O> {
    type Owned = KrbError<S::Owned, N::Owned, O::Owned>;

    ghost same = { λ x. record {
      ctime = x.ctime;
      cusec = x.cusec;
      stime = x.stime;
      susec = x.susec;
      error_code = x.error_code;
      crealm = option_map S.same x.crealm;
      cname = option_map N.same x.cname;
      realm = S.same x.realm;
      sname = N.same x.sname;
      e_text = option_map S.same x.e_text;
      e_data = option_map O.same x.e_data;
    } };

    fn copy(&self, alloc: Global) -> Result<KrbError<S::Owned, N::Owned, O::Owned>, AllocError> {
        Ok(KrbError {
            ctime: self.ctime,
            cusec: self.cusec,
            stime: self.stime,
            susec: self.susec,
            error_code: self.error_code,
            crealm: self.crealm.copy(alloc)?,
            cname: self.cname.copy(alloc)?,
            realm: self.realm.copy(alloc)?,
            sname: self.sname.copy(alloc)?,
            e_text: self.e_text.copy(alloc)?,
            e_data: self.e_data.copy(alloc)?,
        })
    }
}

fn copied(alloc: Global, found: &KrbErrorRef<'_>) -> Result<KrbError, AllocError>
    ensures { IfOk result (λ copy. copy ≡ found.now) }
{
    found.copy(alloc)
}

impl ReadOwned for KrbError {
    fn read_parts(alloc: Global, bytes: &[u8]) -> Result<KrbError, Fault> {
        let found: KrbErrorRef<'_> = read(bytes)?;
        Ok(copied(alloc, &found)?)
    }
}

/// Reads the KRB-ERROR that the bytes encode.
pub fn decode_krb_error(alloc: Global, bytes: &[u8]) -> Result<KrbError, Fault>
    // Promise (found, only, exact): KRB-ERROR, AP-REQ and AP-REP are read exactly from bytes that spell them, unless
    // memory runs out; an error is that of the definition.
    ensures found { IfOk result (λ error. krb_error.Spells error bytes.now) }
    ensures only { (error : trees.KrbError) → krb_error.Spells error bytes.now → IsReadUnlessMemory result error }
    ensures exact { Decodes result (whole krb_error.at bytes.now) }
    // A KRB-ERROR has only one encoding.
    // Promise: a KRB-ERROR and an AP-REP have one encoding.
    ensures one { IfOk result (λ error. bytes.now ≡ written krb_error error) }
{
    read_owned(alloc, bytes)
}

/// Returns the encoding of the KRB-ERROR.
pub fn encode_krb_error(alloc: Global, error: &KrbError) -> Result<Vec<u8>, AllocError>
    requires { length (krb_error.text error.now) < 2 ^ 32 }
    // Promise (written, spelled), as encode_kdc_req: a request, a KRB-ERROR, ..
    ensures written { IfOk result (λ v. v.items ≡ written krb_error error.now) }
    ensures spelled { IfOk result (λ v. krb_error.Spells error.now v.items) }
{
    write(alloc, error)
}
