//! Values in tags of their own.
ghost use Rattle.std.specs.Prelude.{◌≡◌, IfOk, OnOk};
ghost use Rattle.krb_types.specs.Under.{under};

use crate::enc_kdc_rep_part::EncKdcRepPart;
use krb_der::{DerFault, Reader, Writer};
use krb_elements::{Coded, Decode, Encode, Fault, ReadOwned, expect_end};
use krb_fields::numbers::{ENC_AS_REP_PART, ENC_TGS_REP_PART};
use std::alloc::{AllocError, Global};
use std::marker::Model;

/// A value in the tag `[APPLICATION N]`, where N is at most 30. Contracts see the value only.
#[derive(Debug, Drop)]
pub struct Under<const N: u8, T> {
    /// The value inside the tag.
    pub value: T,
}

impl<const N: u8, T> Model for Under<N, T> {
    ghost Value = { T };

    ghost coded = { T.code };

    ghost view = { λ u. u.value };
}

/// The encrypted part of an AS-REP.
pub type EncAsRepPart = Under<ENC_AS_REP_PART, EncKdcRepPart>;

/// The encrypted part of a TGS-REP.
pub type EncTgsRepPart = Under<ENC_TGS_REP_PART, EncKdcRepPart>;

impl<const N: u8, T: Coded> Coded for Under<N, T> {
    ghost codec = { under N T.codec };
}

impl<'a, const N: u8, T: Decode<'a>> Decode<'a> for Under<N, T> {
    fn look(reader: &mut Reader<'a>) -> Result<Under<N, T>, DerFault> {
        let mut contents = Reader::new(reader.read_tlv(0x60 | (N & 0x1f))?);
        let value = T::look(&mut contents)?;
        expect_end(&contents)?;
        Ok(Under { value })
    }
}

impl<const N: u8, T: Encode> Encode for Under<N, T> {
    #[tactic(auto, using(krb_elements::specs::WrittenLaws::tlv_longer))]
    fn put(&self, out: &mut Writer) -> Result<(), AllocError> {
        let start = out.len();
        out.begin(0x60 | (N & 0x1f))?;
        self.value.put(out)?;
        out.end(start)
    }
}

impl<const N: u8, T: ReadOwned> ReadOwned for Under<N, T> {
    fn read_parts(alloc: Global, bytes: &[u8]) -> Result<Under<N, T>, Fault> {
        let mut reader = Reader::new(bytes);
        let value = T::read_parts(alloc, reader.read_tlv(0x60 | (N & 0x1f))?)?;
        expect_end(&reader)?;
        Ok(Under { value })
    }
}
