//! The attributes of a principal in MIT's database.
ghost use Rattle.std.specs.Prelude.{◌≡◌, ◌<◌};
ghost use Rattle.mit_dump.specs.Attribute.{attribute_number};

use krb_fields::NamedBit;

/// An attribute of a principal, as `krb5_db_entry` has it (MIT's `kdb.h`), with the word of `kadmin`.
#[derive(Clone, Copy, PartialEq, Eq)]
pub enum Attribute {
    /// `-allow_postdated`.
    DisallowPostdated,
    /// `-allow_forwardable`.
    DisallowForwardable,
    /// `-allow_tgs_req`.
    DisallowTgsReq,
    /// `-allow_renewable`.
    DisallowRenewable,
    /// `-allow_proxiable`.
    DisallowProxiable,
    /// `-allow_dup_skey`.
    DisallowDupSkey,
    /// `-allow_tix`.
    DisallowAllTix,
    /// `+requires_preauth`.
    RequiresPreAuth,
    /// `+requires_hwauth`.
    RequiresHwAuth,
    /// `+needchange`.
    RequiresPwchange,
    /// `-allow_svr`.
    DisallowSvr,
    /// `+password_changing_service`.
    PwchangeService,
    /// `+ok_as_delegate`.
    OkAsDelegate,
    /// `+ok_to_auth_as_delegate`.
    OkToAuthAsDelegate,
}

impl NamedBit for Attribute {
    ghost use Rattle.mit_dump.specs.Attribute.{attribute_number};

    ghost bit_number = { attribute_number };

    fn number(self) -> u32 {
        match self {
            Attribute::DisallowPostdated => 31,
            Attribute::DisallowForwardable => 30,
            Attribute::DisallowTgsReq => 29,
            Attribute::DisallowRenewable => 28,
            Attribute::DisallowProxiable => 27,
            Attribute::DisallowDupSkey => 26,
            Attribute::DisallowAllTix => 25,
            Attribute::RequiresPreAuth => 24,
            Attribute::RequiresHwAuth => 23,
            Attribute::RequiresPwchange => 22,
            Attribute::DisallowSvr => 19,
            Attribute::PwchangeService => 18,
            Attribute::OkAsDelegate => 11,
            Attribute::OkToAuthAsDelegate => 10,
        }
    }
}
