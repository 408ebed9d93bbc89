//! Realms of a `krb5.conf` that no word of a command line can name.
use krb5_conf::kdcs;
use std::alloc::Global;
use std::test::Fail;

/// A KDC outside of all groups, and one of a realm.
const TEXT: &[u8] = b"[realms]\nkdc = 192.0.2.97\nA.B = {\n  kdc = 192.0.2.1\n}\n";

/// How many KDCs a realm has.
fn count(alloc: Global, realm: &[u8]) -> Result<usize, Fail> {
    Ok(kdcs(alloc, TEXT, realm)?.len())
}

#[test]
fn a_realm_without_a_name_has_no_kdc(rt: HostRuntime) -> Result<(), Fail> {
    assert_eq!(rt; count(rt.alloc(), b"")?, 0);
    assert_eq!(rt; count(rt.alloc(), b"A.B")?, 1);
    Ok(())
}
