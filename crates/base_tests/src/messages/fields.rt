//! Tests of names, flags, codes and moments (`krb_fields`).
use crate::expect::{at_last, judged, same, shows, written};
use krb_elements::KerberosString;
use krb_fields::{
    ApOption, Code, Flags, KdcOption, Moment, Name, NameFault, TicketFlag, component_from_text,
    component_to_text, is_component, numbers,
};
use std::alloc::{AllocError, Global};
use std::cmp::Ordering;

/// Texts, and the names that are read. Their type is NT-PRINCIPAL.
const NAMES: &[(&str, &str)] = &[
    (
        "u\\40x",
        "\
            Ok(Name { name_type: 1, components: Seq { items: [KerberosString { bytes: [117, 64, 120] }] } })",
    ),
    (
        "krbtgt/A.B",
        "\
            Ok(Name { name_type: 1, components: Seq { items: [KerberosString { bytes: [107, 114, 98, 116, 103, 116] \
            }, KerberosString { bytes: [65, 46, 66] }] } })",
    ),
    (
        "host/a\\2fb\\5c\\20!~",
        "\
            Ok(Name { name_type: 1, components: Seq { items: [KerberosString { bytes: [104, 111, 115, 116] }, \
            KerberosString { bytes: [97, 47, 98, 92, 32, 33, 126] }] } })",
    ),
    (
        "\\00\\0a\\7f\\80\\c3\\bf\\ff",
        "\
            Ok(Name { name_type: 1, components: Seq { items: [KerberosString { bytes: [0, 10, 127, 128, 195, 191, \
            255] }] } })",
    ),
    (
        "a/b/c/d/e/f/g/h/i/j/k/l/m/n/o/p",
        "\
            Ok(Name { name_type: 1, components: Seq { items: [KerberosString { bytes: [97] }, KerberosString { bytes: \
            [98] }, KerberosString { bytes: [99] }, KerberosString { bytes: [100] }, KerberosString { bytes: [101] }, \
            KerberosString { bytes: [102] }, KerberosString { bytes: [103] }, KerberosString { bytes: [104] }, \
            KerberosString { bytes: [105] }, KerberosString { bytes: [106] }, KerberosString { bytes: [107] }, \
            KerberosString { bytes: [108] }, KerberosString { bytes: [109] }, KerberosString { bytes: [110] }, \
            KerberosString { bytes: [111] }, KerberosString { bytes: [112] }] } })",
    ),
];

const OTHER_TEXTS: &[&str] = &[
    "",
    "/",
    "a/",
    "/a",
    "a//b",
    "\\4A",
    "\\c3\\BF",
    "\\61",
    "a@b",
    "a b",
    "\u{e9}",
    "a\\",
    "a\\4",
    "\\4/0",
    "\\4g",
    "a/b/c/d/e/f/g/h/i/j/k/l/m/n/o/p/q",
];

#[test]
fn names_are_read_and_written(rt: HostRuntime) {
    let alloc = rt.alloc();
    for (text, name) in NAMES {
        shows(&rt, alloc, Name::from_text(alloc, *text), *name);
        let found = at_last(alloc, &NameFault::Memory, || is_written(alloc, *text));
        same(&rt, text, &found, &Ok(true));
        judged(alloc);
    }
}

#[test]
fn other_texts_are_no_names(rt: HostRuntime) {
    let alloc = rt.alloc();
    for text in OTHER_TEXTS {
        let found = Name::from_text(alloc, *text);
        shows(&rt, alloc, found, "Err(BadName)");
    }
}

/// Checks whether the text is that of the name that is read from it, within the limits.
fn is_written(alloc: Global, text: &str) -> Result<bool, NameFault> {
    let name = Name::from_text(alloc, text)?;
    let written = name.to_text(alloc)?;
    Ok(name.is_within_limits() && written.as_str() == text)
}

/// Returns the text of a component of this many bytes 255.
fn long_text(alloc: Global, count: usize) -> Result<String, AllocError> {
    let mut text = String::new(alloc);
    for _ in 0..count {
        text.push_str("\\ff")?;
    }
    Ok(text)
}

/// Checks whether that text is read and written.
fn is_spelled(alloc: Global, count: usize) -> Result<bool, NameFault> {
    let text = long_text(alloc, count)?;
    spells(alloc, text.as_str(), &[0xff; 255])
}

/// Checks whether the text is read as the component with these bytes, and written again from it.
fn spells(alloc: Global, text: &str, octets: &[u8]) -> Result<bool, NameFault> {
    let component = component_from_text(alloc, text)?;
    let written = component_to_text(alloc, component.as_slice())?;
    Ok(component.as_slice() == octets && is_component(octets) && written.as_str() == text)
}

/// The text of a realm is the text of one component.
#[test]
fn components_and_realms_are_read_and_written(rt: HostRuntime) {
    let alloc = rt.alloc();
    let found = (
        is_spelled(alloc, 255),
        is_spelled(alloc, 256),
        spells(alloc, "A.B", b"A.B"),
        spells(alloc, "", b""),
        spells(alloc, "A/B", b"A/B"),
        spells(alloc, "A@B", b"A@B"),
    );
    shows(
        &rt,
        alloc,
        found,
        "(Ok(true), Err(BadName), Ok(true), Err(BadName), Err(BadName), Err(BadName))",
    );
}

fn is_within_limits(alloc: Global, components: &[&[u8]]) -> Result<bool, AllocError> {
    let name = Name::new(alloc, 1, components)?;
    Ok(name.is_within_limits())
}

#[test]
fn names_have_1_to_16_components_of_1_to_255_bytes(rt: HostRuntime) {
    let alloc = rt.alloc();
    let found = (
        is_component(&[1; 256]),
        is_component(&[]),
        is_within_limits(alloc, &[]),
        is_within_limits(alloc, &[b"a", b""]),
        is_within_limits(alloc, &[b"a".as_slice(); 17]),
    );
    shows(
        &rt,
        alloc,
        found,
        "(false, false, Ok(false), Ok(false), Ok(false))",
    );
}

/// Returns the salt of the name with these components in the realm.
fn salt_of(
    alloc: Global,
    realm: &[u8],
    components: &[&[u8]],
) -> Result<KerberosString, AllocError> {
    let name = Name::new(alloc, 1, components)?;
    name.salt(alloc, realm)
}

/// The salt of raeburn in ATHENA.MIT.EDU is the one in RFC 3962, appendix B.
#[test]
fn salts_join_realm_and_components(rt: HostRuntime) {
    const SALTS: &[(&[u8], &[&[u8]], &[u8])] = &[
        (b"A.B", &[b"u"], b"A.Bu"),
        (b"ATHENA.MIT.EDU", &[b"raeburn"], b"ATHENA.MIT.EDUraeburn"),
        (b"A.B", &[b"krbtgt", b"A.B"], b"A.BkrbtgtA.B"),
        (b"A.B", &[], b"A.B"),
    ];
    let alloc = rt.alloc();
    for (realm, components, salt) in SALTS {
        let salted = at_last(alloc, &AllocError, || salt_of(alloc, *realm, *components));
        written(&rt, salted.map(KerberosString::into_vec), *salt);
        judged(alloc);
    }
}

#[test]
fn names_are_ordered_by_components(rt: HostRuntime) {
    const TEXTS: &[&str] = &[
        "a",
        "b",
        "h",
        "krbtgt/A",
        "krbtgt/A.B",
        "krbtgt0",
        "u",
        "u/a",
    ];
    for (i, one) in TEXTS.iter().enumerate() {
        for (j, other) in TEXTS.iter().enumerate() {
            let order = compare_texts(rt.alloc(), *one, *other);
            same(&rt, &(one, other), &order, &Ok((i.cmp(&j), i == j, 2)));
        }
    }
}

/// Returns the order of the names with two texts, and whether they are equal. The second one gets the type 2 and is
/// copied, and the last part is the type of its copy.
fn compare_texts(
    alloc: Global,
    one: &str,
    other: &str,
) -> Result<(Ordering, bool, i32), NameFault> {
    let one = Name::from_text(alloc, one)?;
    let mut other = Name::from_text(alloc, other)?;
    other.name_type = 2;
    let copy = other.copy(alloc)?;
    Ok((one.order(&copy), one.is_same(&copy), copy.name_type))
}

#[test]
fn moments_are_in_range(rt: HostRuntime) {
    for (sec, usec, fits) in [
        (0, 0, true),
        (253402300799, 999999, true),
        (-1, 0, false),
        (253402300800, 0, false),
        (0, 1000000, false),
    ] {
        same(
            &rt,
            &(sec, usec),
            &moment(sec, usec),
            &if fits { Some((sec, usec)) } else { None },
        );
    }
}

/// Returns the parts of the moment with these.
fn moment(sec: i64, usec: u32) -> Option<(i64, u32)> {
    let at = Moment::new(sec, usec)?;
    Some((at.sec, at.usec))
}

// The masks come from krb5.h of MIT Kerberos.

const TICKET: &[(TicketFlag, u32)] = &[
    (TicketFlag::Forwardable, 0x4000_0000),
    (TicketFlag::Forwarded, 0x2000_0000),
    (TicketFlag::Proxiable, 0x1000_0000),
    (TicketFlag::Proxy, 0x0800_0000),
    (TicketFlag::MayPostdate, 0x0400_0000),
    (TicketFlag::Postdated, 0x0200_0000),
    (TicketFlag::Invalid, 0x0100_0000),
    (TicketFlag::Renewable, 0x0080_0000),
    (TicketFlag::Initial, 0x0040_0000),
    (TicketFlag::PreAuthent, 0x0020_0000),
    (TicketFlag::HwAuthent, 0x0010_0000),
    (TicketFlag::TransitedPolicyChecked, 0x0008_0000),
    (TicketFlag::OkAsDelegate, 0x0004_0000),
];

const OPTIONS: &[(KdcOption, u32)] = &[
    (KdcOption::Forwardable, 0x4000_0000),
    (KdcOption::Forwarded, 0x2000_0000),
    (KdcOption::Proxiable, 0x1000_0000),
    (KdcOption::Proxy, 0x0800_0000),
    (KdcOption::AllowPostdate, 0x0400_0000),
    (KdcOption::Postdated, 0x0200_0000),
    (KdcOption::Renewable, 0x0080_0000),
    (KdcOption::DisableTransitedCheck, 0x20),
    (KdcOption::RenewableOk, 0x10),
    (KdcOption::EncTktInSkey, 0x08),
    (KdcOption::Renew, 0x02),
    (KdcOption::Validate, 0x01),
];

#[test]
fn flags_of_tickets_have_their_bits(rt: HostRuntime) {
    let none = Flags::from_bits(0);
    for (flag, mask) in TICKET {
        same(&rt, &"a ticket's flag", &none.with(*flag).bits(), mask);
    }
}

#[test]
fn options_have_their_bits(rt: HostRuntime) {
    let none = Flags::from_bits(0);
    for (option, mask) in OPTIONS {
        same(&rt, &"an option", &none.with(*option).bits(), mask);
    }
    let bits = (
        none.with(ApOption::UseSessionKey).bits(),
        none.with(ApOption::MutualRequired).bits(),
    );
    same(&rt, &"AP options", &bits, &(0x4000_0000, 0x2000_0000));
}

#[test]
fn flags_are_set_and_cleared(rt: HostRuntime) {
    let flags = Flags::from_bits(0x8080_0001);
    let (renewable, invalid) = (TicketFlag::Renewable, TicketFlag::Invalid);
    let found = (
        flags.has(renewable),
        flags.has(invalid),
        flags.without(renewable) == Flags::from_bits(0x8000_0001),
        flags.without(invalid) == flags,
        flags.with(renewable) == flags,
    );
    same(&rt, &"flags", &found, &(true, false, true, true, true));
}

/// Codes with their numbers and names from the table of RFC 4120, section 7.5.9.
const CODES: &[(Code, &str)] = &[
    (Code::KdcErrNameExp, "1 KDC_ERR_NAME_EXP"),
    (Code::KdcErrServiceExp, "2 KDC_ERR_SERVICE_EXP"),
    (Code::KdcErrBadPvno, "3 KDC_ERR_BAD_PVNO"),
    (
        Code::KdcErrCPrincipalUnknown,
        "6 KDC_ERR_C_PRINCIPAL_UNKNOWN",
    ),
    (
        Code::KdcErrSPrincipalUnknown,
        "7 KDC_ERR_S_PRINCIPAL_UNKNOWN",
    ),
    (Code::KdcErrCannotPostdate, "10 KDC_ERR_CANNOT_POSTDATE"),
    (Code::KdcErrNeverValid, "11 KDC_ERR_NEVER_VALID"),
    (Code::KdcErrPolicy, "12 KDC_ERR_POLICY"),
    (Code::KdcErrBadoption, "13 KDC_ERR_BADOPTION"),
    (Code::KdcErrEtypeNosupp, "14 KDC_ERR_ETYPE_NOSUPP"),
    (Code::KdcErrSumtypeNosupp, "15 KDC_ERR_SUMTYPE_NOSUPP"),
    (
        Code::KdcErrPadataTypeNosupp,
        "16 KDC_ERR_PADATA_TYPE_NOSUPP",
    ),
    (Code::KdcErrClientRevoked, "18 KDC_ERR_CLIENT_REVOKED"),
    (Code::KdcErrServiceRevoked, "19 KDC_ERR_SERVICE_REVOKED"),
    (Code::KdcErrTgtRevoked, "20 KDC_ERR_TGT_REVOKED"),
    (Code::KdcErrKeyExpired, "23 KDC_ERR_KEY_EXPIRED"),
    (Code::KdcErrPreauthFailed, "24 KDC_ERR_PREAUTH_FAILED"),
    (Code::KdcErrPreauthRequired, "25 KDC_ERR_PREAUTH_REQUIRED"),
    (Code::KdcErrServerNomatch, "26 KDC_ERR_SERVER_NOMATCH"),
    (Code::KdcErrSvcUnavailable, "29 KDC_ERR_SVC_UNAVAILABLE"),
    (Code::KrbApErrBadIntegrity, "31 KRB_AP_ERR_BAD_INTEGRITY"),
    (Code::KrbApErrTktExpired, "32 KRB_AP_ERR_TKT_EXPIRED"),
    (Code::KrbApErrTktNyv, "33 KRB_AP_ERR_TKT_NYV"),
    (Code::KrbApErrRepeat, "34 KRB_AP_ERR_REPEAT"),
    (Code::KrbApErrNotUs, "35 KRB_AP_ERR_NOT_US"),
    (Code::KrbApErrBadmatch, "36 KRB_AP_ERR_BADMATCH"),
    (Code::KrbApErrSkew, "37 KRB_AP_ERR_SKEW"),
    (Code::KrbApErrBadaddr, "38 KRB_AP_ERR_BADADDR"),
    (Code::KrbApErrBadversion, "39 KRB_AP_ERR_BADVERSION"),
    (Code::KrbApErrMsgType, "40 KRB_AP_ERR_MSG_TYPE"),
    (Code::KrbApErrModified, "41 KRB_AP_ERR_MODIFIED"),
    (Code::KrbApErrBadkeyver, "44 KRB_AP_ERR_BADKEYVER"),
    (Code::KrbApErrNokey, "45 KRB_AP_ERR_NOKEY"),
    (Code::KrbApErrInappCksum, "50 KRB_AP_ERR_INAPP_CKSUM"),
    (Code::KrbApPathNotAccepted, "51 KRB_AP_PATH_NOT_ACCEPTED"),
    (Code::KrbErrResponseTooBig, "52 KRB_ERR_RESPONSE_TOO_BIG"),
    (Code::KrbErrGeneric, "60 KRB_ERR_GENERIC"),
    (Code::KrbErrFieldToolong, "61 KRB_ERR_FIELD_TOOLONG"),
];

#[test]
fn numbers_are_those_of_the_standard(rt: HostRuntime) {
    let found = [
        numbers::NT_PRINCIPAL,
        numbers::NT_SRV_INST,
        numbers::DOMAIN_X500_COMPRESS,
        numbers::LR_NONE,
        numbers::PA_TGS_REQ,
        numbers::PA_ENC_TIMESTAMP,
        numbers::PA_ETYPE_INFO2,
    ];
    same(&rt, &"numbers of fields", &found, &[1, 2, 1, 0, 1, 2, 19]);
}

#[test]
fn codes_have_their_names(rt: HostRuntime) {
    for (code, text) in CODES {
        same(&rt, text, &is_printed(rt.alloc(), *code, *text), &Ok(true));
    }
}

/// Checks whether this is the code's number and name.
fn is_printed(alloc: Global, code: Code, text: &str) -> Result<bool, AllocError> {
    let printed = format!(in alloc; "{} {code}", code.number())?;
    Ok(printed.as_str() == text)
}
