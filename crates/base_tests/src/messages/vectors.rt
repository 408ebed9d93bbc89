//! The bytes of messages, in hexadecimal, and their values as `{:?}` prints them. The bytes of whole messages come from
//! pyasn1, with the types of RFC 4120, and those of the contents of OCTET STRINGs from an encoder in Python. The values
//! are what these were given; their seconds come from Python's datetime.

/// The AS-REQ of `u` for `krbtgt/A.B`.
pub const AS_REQ: &str = "\
    6a693067\
    a103020105\
    a20302010a\
    a45b3059\
    a00703050000000000\
    a10e300ca003020101a10530031b0175\
    a2051b03412e42\
    a3183016a003020102a10f300d1b066b72627467741b03412e42\
    a511180f31393730303130313030303030305a\
    a703020101\
    a8053003020112";

pub const AS_REQ_VALUE: &str = "\
    Ok(Under { value: KdcReq { pvno: 5, msg_type: 10, padata: None, body: ReqBody { kdc_options: Flags { bits: 0 }, \
    cname: Some(Name { name_type: 1, components: Seq { items: [KerberosString { bytes: [117] }] } }), realm: \
    KerberosString { bytes: [65, 46, 66] }, sname: Some(Name { name_type: 2, components: Seq { items: \
    [KerberosString { bytes: [107, 114, 98, 116, 103, 116] }, KerberosString { bytes: [65, 46, 66] }] } }), from: \
    None, till: KTime { seconds: 0 }, rtime: None, nonce: UInt32 { value: 1 }, etype: Seq { items: [18] }, \
    addresses: None, enc_authorization_data: None, additional_tickets: None } } })";

/// A TGS-REQ with each field but the client's name.
pub const TGS_REQ: &str = "\
    6c81f93081f6\
    a103020105\
    a20302010c\
    a30f300d300ba103020101a20404020102\
    a481d83081d5\
    a00703050040810010\
    a2051b03412e42\
    a3143012a003020103a10b30091b04686f73741b0162\
    a411180f32303234303130313030303030305a\
    a511180f32303234303130323030303030305a\
    a611180f32303234303130333030303030305a\
    a70702050080000000\
    a8083006020112020111\
    a911300f300da003020102a10604040a000001\
    aa0d300ba003020112a20404020304\
    ab3f303d613b3039a003020105a1051b03412e42\
    a2183016a003020102a10f300d1b066b72627467741b03412e42\
    a311300fa003020111a103020107a203040105";

pub const TGS_REQ_VALUE: &str = "\
    Ok(Under { value: KdcReq { pvno: 5, msg_type: 12, padata: Some(Seq { items: [PaData { padata_type: 1, \
    padata_value: Octets { bytes: [1, 2] } }] }), body: ReqBody { kdc_options: Flags { bits: 1082195984 }, cname: \
    None, realm: KerberosString { bytes: [65, 46, 66] }, sname: Some(Name { name_type: 3, components: Seq { items: \
    [KerberosString { bytes: [104, 111, 115, 116] }, KerberosString { bytes: [98] }] } }), from: Some(KTime { \
    seconds: 1704067200 }), till: KTime { seconds: 1704153600 }, rtime: Some(KTime { seconds: 1704240000 }), nonce: \
    UInt32 { value: 2147483648 }, etype: Seq { items: [18, 17] }, addresses: Some(Seq { items: [Typed { number: 2, \
    octets: Octets { bytes: [10, 0, 0, 1] } }] }), enc_authorization_data: Some(EncryptedData { etype: 18, kvno: \
    None, cipher: Octets { bytes: [3, 4] } }), additional_tickets: Some(Seq { items: [Ticket { tkt_vno: 5, realm: \
    KerberosString { bytes: [65, 46, 66] }, sname: Name { name_type: 2, components: Seq { items: [KerberosString { \
    bytes: [107, 114, 98, 116, 103, 116] }, KerberosString { bytes: [65, 46, 66] }] } }, enc_part: EncryptedData { \
    etype: 17, kvno: Some(UInt32 { value: 7 }), cipher: Octets { bytes: [5] } } }] }) } } })";

/// An EncryptedData with a cipher of the bytes 0 to 7.
pub const ENCRYPTED_DATA: &str = "\
    301aa003020114a107020500ffffffffa20a04080001020304050607";

pub const ENCRYPTED_DATA_VALUE: &str = "\
    Ok(EncryptedData { etype: 20, kvno: Some(UInt32 { value: 4294967295 }), cipher: Octets { bytes: [0, 1, 2, 3, 4, \
    5, 6, 7] } })";

/// A ticket without a kvno.
pub const HOST_TICKET: &str = "\
    61323030\
    a003020105\
    a1051b03412e42\
    a2143012a003020103a10b30091b04686f73741b0162\
    a30c300aa003020111a203040105";

pub const HOST_TICKET_VALUE: &str = "\
    Ok(Ticket { tkt_vno: 5, realm: KerberosString { bytes: [65, 46, 66] }, sname: Name { name_type: 3, components: \
    Seq { items: [KerberosString { bytes: [104, 111, 115, 116] }, KerberosString { bytes: [98] }] } }, enc_part: \
    EncryptedData { etype: 17, kvno: None, cipher: Octets { bytes: [5] } } })";

/// An AS-REP with two padata.
pub const TWO_PADATA: &str = "\
    6b8195308192\
    a003020105\
    a10302010b\
    a21a3018300ba103020113a20404023000\
    3009a103020103a2020400\
    a3051b03412e42\
    a40e300ca003020101a10530031b0175\
    a53f613d303ba003020105a1051b03412e42\
    a2183016a003020102a10f300d1b066b72627467741b03412e42\
    a3133011a003020112a103020107a2050403010203\
    a6123010a003020112a103020102a20404020405";

pub const TWO_PADATA_VALUE: &str = "\
    Ok(KdcRep { padata: Some(Seq { items: [PaData { padata_type: 19, padata_value: Octets { bytes: [48, 0] } }, \
    PaData { padata_type: 3, padata_value: Octets { bytes: [] } }] }), crealm: KerberosString { bytes: [65, 46, 66] \
    }, cname: Name { name_type: 1, components: Seq { items: [KerberosString { bytes: [117] }] } }, ticket: Ticket { \
    tkt_vno: 5, realm: KerberosString { bytes: [65, 46, 66] }, sname: Name { name_type: 2, components: Seq { items: \
    [KerberosString { bytes: [107, 114, 98, 116, 103, 116] }, KerberosString { bytes: [65, 46, 66] }] } }, enc_part: \
    EncryptedData { etype: 18, kvno: Some(UInt32 { value: 7 }), cipher: Octets { bytes: [1, 2, 3] } } }, enc_part: \
    EncryptedData { etype: 18, kvno: Some(UInt32 { value: 2 }), cipher: Octets { bytes: [4, 5] } } })";

/// A TGS-REP without padata, with an empty cipher.
pub const TGS_REP: &str = "\
    6d743072\
    a003020105\
    a10302010d\
    a3051b03412e42\
    a4153013a003020101a10c300a1b01751b0561646d696e\
    a53b61393037a003020105a1051b03412e42\
    a2143012a003020103a10b30091b04686f73741b0162\
    a3133011a003020112a103020107a2050403010203\
    a60b3009a003020111a2020400";

pub const TGS_REP_VALUE: &str = "\
    Ok(KdcRep { padata: None, crealm: KerberosString { bytes: [65, 46, 66] }, cname: Name { name_type: 1, \
    components: Seq { items: [KerberosString { bytes: [117] }, KerberosString { bytes: [97, 100, 109, 105, 110] }] } \
    }, ticket: Ticket { tkt_vno: 5, realm: KerberosString { bytes: [65, 46, 66] }, sname: Name { name_type: 3, \
    components: Seq { items: [KerberosString { bytes: [104, 111, 115, 116] }, KerberosString { bytes: [98] }] } }, \
    enc_part: EncryptedData { etype: 18, kvno: Some(UInt32 { value: 7 }), cipher: Octets { bytes: [1, 2, 3] } } }, \
    enc_part: EncryptedData { etype: 17, kvno: None, cipher: Octets { bytes: [] } } })";

/// An error without optional fields.
pub const SHORT_ERROR: &str = "\
    7e4a3048\
    a003020105\
    a10302011e\
    a411180f32303234303130313030303030305a\
    a503020100\
    a603020106\
    a9051b03412e42\
    aa183016a003020102a10f300d1b066b72627467741b03412e42";

pub const SHORT_ERROR_VALUE: &str = "\
    Ok(KrbError { ctime: None, cusec: None, stime: KTime { seconds: 1704067200 }, susec: Microseconds { value: 0 }, \
    error_code: 6, crealm: None, cname: None, realm: KerberosString { bytes: [65, 46, 66] }, sname: Name { name_type: \
    2, components: Seq { items: [KerberosString { bytes: [107, 114, 98, 116, 103, 116] }, KerberosString { bytes: \
    [65, 46, 66] }] } }, e_text: None, e_data: None })";

/// An error with each field.
pub const LONG_ERROR: &str = "\
    7e8186308183\
    a003020105\
    a10302011e\
    a211180f32303233313233313233353935395a\
    a30502030f423f\
    a411180f32303234303130313030303030305a\
    a503020101\
    a603020119\
    a7031b0143\
    a80e300ca003020101a10530031b0175\
    a9051b03412e42\
    aa183016a003020102a10f300d1b066b72627467741b03412e42\
    ab041b026e6f\
    ac0404023000";

pub const LONG_ERROR_VALUE: &str = "\
    Ok(KrbError { ctime: Some(KTime { seconds: 1704067199 }), cusec: Some(Microseconds { value: 999999 }), stime: \
    KTime { seconds: 1704067200 }, susec: Microseconds { value: 1 }, error_code: 25, crealm: Some(KerberosString { \
    bytes: [67] }), cname: Some(Name { name_type: 1, components: Seq { items: [KerberosString { bytes: [117] }] } }), \
    realm: KerberosString { bytes: [65, 46, 66] }, sname: Name { name_type: 2, components: Seq { items: \
    [KerberosString { bytes: [107, 114, 98, 116, 103, 116] }, KerberosString { bytes: [65, 46, 66] }] } }, e_text: \
    Some(KerberosString { bytes: [110, 111] }), e_data: Some(Octets { bytes: [48, 0] }) })";

/// A ticket for `krbtgt/A.B`, with mutual-required.
pub const AP_REQ: &str = "\
    6e653063\
    a003020105\
    a10302010e\
    a20703050020000000\
    a33f613d303ba003020105a1051b03412e42\
    a2183016a003020102a10f300d1b066b72627467741b03412e42\
    a3133011a003020112a103020107a2050403010203\
    a40d300ba003020111a20404020405";

pub const AP_REQ_VALUE: &str = "\
    Ok(ApReq { pvno: 5, msg_type: 14, ap_options: Flags { bits: 536870912 }, ticket: Ticket { tkt_vno: 5, realm: \
    KerberosString { bytes: [65, 46, 66] }, sname: Name { name_type: 2, components: Seq { items: [KerberosString { \
    bytes: [107, 114, 98, 116, 103, 116] }, KerberosString { bytes: [65, 46, 66] }] } }, enc_part: EncryptedData { \
    etype: 18, kvno: Some(UInt32 { value: 7 }), cipher: Octets { bytes: [1, 2, 3] } } }, authenticator: EncryptedData \
    { etype: 17, kvno: None, cipher: Octets { bytes: [4, 5] } } })";

/// The AP-REQ without its authenticator.
pub const WITHOUT_AUTHENTICATOR: &str = "\
    6e563054\
    a003020105\
    a10302010e\
    a20703050020000000\
    a33f613d303ba003020105a1051b03412e42\
    a2183016a003020102a10f300d1b066b72627467741b03412e42\
    a3133011a003020112a103020107a2050403010203";

/// An AP-REQ of version 4 and type 15, with two options that have no name, and with ciphers of 200 and 130 bytes, which
/// count up from 0.
pub const LONG_REQ: &str = "\
    6e8201b4308201b0a003020104a10302010fa20703050040010001a38201016181fe3081fba003020105a1051b03412e42a2\
    143012a003020103a10b30091b04686f73741b0162a381d63081d3a003020114a281cb0481c8000102030405060708090a0b\
    0c0d0e0f101112131415161718191a1b1c1d1e1f202122232425262728292a2b2c2d2e2f303132333435363738393a3b3c3d\
    3e3f404142434445464748494a4b4c4d4e4f505152535455565758595a5b5c5d5e5f606162636465666768696a6b6c6d6e6f\
    707172737475767778797a7b7c7d7e7f808182838485868788898a8b8c8d8e8f909192939495969798999a9b9c9d9e9fa0a1\
    a2a3a4a5a6a7a8a9aaabacadaeafb0b1b2b3b4b5b6b7b8b9babbbcbdbebfc0c1c2c3c4c5c6c7a48195308192a003020113a1\
    03020109a28185048182000102030405060708090a0b0c0d0e0f101112131415161718191a1b1c1d1e1f2021222324252627\
    28292a2b2c2d2e2f303132333435363738393a3b3c3d3e3f404142434445464748494a4b4c4d4e4f50515253545556575859\
    5a5b5c5d5e5f606162636465666768696a6b6c6d6e6f707172737475767778797a7b7c7d7e7f8081";

pub const LONG_REQ_VALUE: &str = "\
    Ok(ApReq { pvno: 4, msg_type: 15, ap_options: Flags { bits: 1073807361 }, ticket: Ticket { tkt_vno: 5, realm: \
    KerberosString { bytes: [65, 46, 66] }, sname: Name { name_type: 3, components: Seq { items: [KerberosString { \
    bytes: [104, 111, 115, 116] }, KerberosString { bytes: [98] }] } }, enc_part: EncryptedData { etype: 20, kvno: \
    None, cipher: Octets { bytes: [0, 1, 2, 3, 4, 5, 6, 7, 8, 9, 10, 11, 12, 13, 14, 15, 16, 17, 18, 19, 20, 21, 22, \
    23, 24, 25, 26, 27, 28, 29, 30, 31, 32, 33, 34, 35, 36, 37, 38, 39, 40, 41, 42, 43, 44, 45, 46, 47, 48, 49, 50, \
    51, 52, 53, 54, 55, 56, 57, 58, 59, 60, 61, 62, 63, 64, 65, 66, 67, 68, 69, 70, 71, 72, 73, 74, 75, 76, 77, 78, \
    79, 80, 81, 82, 83, 84, 85, 86, 87, 88, 89, 90, 91, 92, 93, 94, 95, 96, 97, 98, 99, 100, 101, 102, 103, 104, 105, \
    106, 107, 108, 109, 110, 111, 112, 113, 114, 115, 116, 117, 118, 119, 120, 121, 122, 123, 124, 125, 126, 127, \
    128, 129, 130, 131, 132, 133, 134, 135, 136, 137, 138, 139, 140, 141, 142, 143, 144, 145, 146, 147, 148, 149, \
    150, 151, 152, 153, 154, 155, 156, 157, 158, 159, 160, 161, 162, 163, 164, 165, 166, 167, 168, 169, 170, 171, \
    172, 173, 174, 175, 176, 177, 178, 179, 180, 181, 182, 183, 184, 185, 186, 187, 188, 189, 190, 191, 192, 193, \
    194, 195, 196, 197, 198, 199] } } }, authenticator: EncryptedData { etype: 19, kvno: Some(UInt32 { value: 9 }), \
    cipher: Octets { bytes: [0, 1, 2, 3, 4, 5, 6, 7, 8, 9, 10, 11, 12, 13, 14, 15, 16, 17, 18, 19, 20, 21, 22, 23, \
    24, 25, 26, 27, 28, 29, 30, 31, 32, 33, 34, 35, 36, 37, 38, 39, 40, 41, 42, 43, 44, 45, 46, 47, 48, 49, 50, 51, \
    52, 53, 54, 55, 56, 57, 58, 59, 60, 61, 62, 63, 64, 65, 66, 67, 68, 69, 70, 71, 72, 73, 74, 75, 76, 77, 78, 79, \
    80, 81, 82, 83, 84, 85, 86, 87, 88, 89, 90, 91, 92, 93, 94, 95, 96, 97, 98, 99, 100, 101, 102, 103, 104, 105, \
    106, 107, 108, 109, 110, 111, 112, 113, 114, 115, 116, 117, 118, 119, 120, 121, 122, 123, 124, 125, 126, 127, \
    128, 129] } } })";

/// An AP-REP without a kvno.
pub const AP_REP: &str = "\
    6f1c301a\
    a003020105\
    a10302010f\
    a20e300ca003020112a2050403060708";

pub const AP_REP_VALUE: &str = "\
    Ok(ApRep { enc_part: EncryptedData { etype: 18, kvno: None, cipher: Octets { bytes: [6, 7, 8] } } })";

/// An AP-REP with the kvno 2147483648 and an empty cipher of type -1.
pub const OTHER_REP: &str = "\
    6f223020\
    a003020105\
    a10302010f\
    a2143012a0030201ffa10702050080000000a2020400";

pub const OTHER_REP_VALUE: &str = "\
    Ok(ApRep { enc_part: EncryptedData { etype: -1, kvno: Some(UInt32 { value: 2147483648 }), cipher: Octets { bytes: \
    [] } } })";

/// An EncTicketPart with each field.
pub const TICKET: &str = "\
    6381d93081d6a00703050040c10000a12b3029a003020112a1220420000102030405060708090a0b0c0d0e0f101112131415\
    161718191a1b1c1d1e1fa2051b03412e42a30e300ca003020101a10530031b0175a40b3009a003020101a1020400a511180f\
    32303234303130313030303030305aa611180f32303234303130313030303130305aa711180f323032343031303131303030\
    30305aa811180f32303234303130383030303030305aa911300f300da003020102a10604040a000001aa1b3019300ba00302\
    0101a10404023000300aa0030201ffa103040178";

pub const TICKET_VALUE: &str = "\
    Ok(EncTicketPart { flags: Flags { bits: 1086390272 }, key: Typed { number: 18, octets: Octets { bytes: [0, 1, 2, \
    3, 4, 5, 6, 7, 8, 9, 10, 11, 12, 13, 14, 15, 16, 17, 18, 19, 20, 21, 22, 23, 24, 25, 26, 27, 28, 29, 30, 31] } }, \
    crealm: KerberosString { bytes: [65, 46, 66] }, cname: Name { name_type: 1, components: Seq { items: \
    [KerberosString { bytes: [117] }] } }, transited: Typed { number: 1, octets: Octets { bytes: [] } }, authtime: \
    KTime { seconds: 1704067200 }, starttime: Some(KTime { seconds: 1704067260 }), endtime: KTime { seconds: \
    1704103200 }, renew_till: Some(KTime { seconds: 1704672000 }), caddr: Some(Seq { items: [Typed { number: 2, \
    octets: Octets { bytes: [10, 0, 0, 1] } }] }), authorization_data: Some(Seq { items: [Typed { number: 1, octets: \
    Octets { bytes: [48, 0] } }, Typed { number: -1, octets: Octets { bytes: [120] } }] }) })";

/// An EncTicketPart without optional fields.
pub const LEAST_TICKET: &str = "\
    63723070a00703050000400000a11b3019a003020111a1120410000102030405060708090a0b0c0d0e0fa2051b03412e42a3\
    0e300ca003020101a10530031b0175a40b3009a003020101a1020400a511180f32303234303130313030303030305aa71118\
    0f32303234303130313130303030305a";

pub const LEAST_TICKET_VALUE: &str = "\
    Ok(EncTicketPart { flags: Flags { bits: 4194304 }, key: Typed { number: 17, octets: Octets { bytes: [0, 1, 2, 3, \
    4, 5, 6, 7, 8, 9, 10, 11, 12, 13, 14, 15] } }, crealm: KerberosString { bytes: [65, 46, 66] }, cname: Name { \
    name_type: 1, components: Seq { items: [KerberosString { bytes: [117] }] } }, transited: Typed { number: 1, \
    octets: Octets { bytes: [] } }, authtime: KTime { seconds: 1704067200 }, starttime: None, endtime: KTime { \
    seconds: 1704103200 }, renew_till: None, caddr: None, authorization_data: None })";

/// An Authenticator with each field.
pub const AUTHENTICATOR: &str = "\
    628180307ea003020105a1051b03412e42a20e300ca003020101a10530031b0175a30e300ca003020110a1050403010203a4\
    03020107a511180f32303234303130313030303030305aa62b3029a003020112a1220420000102030405060708090a0b0c0d\
    0e0f101112131415161718191a1b1c1d1e1fa707020500ffffffffa8023000";

pub const AUTHENTICATOR_VALUE: &str = "\
    Ok(Authenticator { crealm: KerberosString { bytes: [65, 46, 66] }, cname: Name { name_type: 1, components: Seq { \
    items: [KerberosString { bytes: [117] }] } }, cksum: Some(Typed { number: 16, octets: Octets { bytes: [1, 2, 3] } \
    }), cusec: Microseconds { value: 7 }, ctime: KTime { seconds: 1704067200 }, subkey: Some(Typed { number: 18, \
    octets: Octets { bytes: [0, 1, 2, 3, 4, 5, 6, 7, 8, 9, 10, 11, 12, 13, 14, 15, 16, 17, 18, 19, 20, 21, 22, 23, \
    24, 25, 26, 27, 28, 29, 30, 31] } }), seq_number: Some(UInt32 { value: 4294967295 }), authorization_data: \
    Some(Seq { items: [] }) })";

/// An Authenticator of version 4.
pub const VERSION_4: &str = "\
    62363034a003020104a1051b03412e42a20e300ca003020101a10530031b0175a403020107a511180f323032343031303130\
    30303030305a";

/// An EncASRepPart with each field.
pub const REPLY: &str = "\
    7981ef3081eca02b3029a003020112a1220420000102030405060708090a0b0c0d0e0f101112131415161718191a1b1c1d1e\
    1fa11c301a3018a003020100a111180f32303234303130313030303030305aa2030201ffa311180f32303235303130313030\
    303030305aa40703050000400000a511180f32303234303130313030303030305aa611180f32303234303130313030303130\
    305aa711180f32303234303130313130303030305aa811180f32303234303130383030303030305aa9051b03412e42aa1830\
    16a003020102a10f300d1b066b72627467741b03412e42ab11300f300da003020102a10604040a000001";

pub const REPLY_VALUE: &str = "\
    Ok(Under { value: EncKdcRepPart { key: Typed { number: 18, octets: Octets { bytes: [0, 1, 2, 3, 4, 5, 6, 7, 8, \
    9, 10, 11, 12, 13, 14, 15, 16, 17, 18, 19, 20, 21, 22, 23, 24, 25, 26, 27, 28, 29, 30, 31] } }, last_req: Seq { \
    items: [LastReq { lr_type: 0, lr_value: KTime { seconds: 1704067200 } }] }, nonce: UInt32 { value: -1 }, \
    key_expiration: Some(KTime { seconds: 1735689600 }), flags: Flags { bits: 4194304 }, authtime: KTime { seconds: \
    1704067200 }, starttime: Some(KTime { seconds: 1704067260 }), endtime: KTime { seconds: 1704103200 }, \
    renew_till: Some(KTime { seconds: 1704672000 }), srealm: KerberosString { bytes: [65, 46, 66] }, sname: Name { \
    name_type: 2, components: Seq { items: [KerberosString { bytes: [107, 114, 98, 116, 103, 116] }, KerberosString \
    { bytes: [65, 46, 66] }] } }, caddr: Some(Seq { items: [Typed { number: 2, octets: Octets { bytes: [10, 0, 0, 1] \
    } }] }) } })";

/// An EncTGSRepPart without optional fields and without a LastReq, with flags that have no name, and with the first and
/// the last time.
pub const LEAST_REPLY: &str = "\
    7a773075\
    a01b3019a003020111a1120410000102030405060708090a0b0c0d0e0f\
    a1023000\
    a20602047fffffff\
    a40703050040c00001\
    a511180f31393730303130313030303030305a\
    a711180f39393939313233313233353935395a\
    a9051b03412e42\
    aa143012a003020103a10b30091b04686f73741b0162";

pub const LEAST_REPLY_VALUE: &str = "\
    Ok(Under { value: EncKdcRepPart { key: Typed { number: 17, octets: Octets { bytes: [0, 1, 2, 3, 4, 5, 6, 7, 8, \
    9, 10, 11, 12, 13, 14, 15] } }, last_req: Seq { items: [] }, nonce: UInt32 { value: 2147483647 }, \
    key_expiration: None, flags: Flags { bits: 1086324737 }, authtime: KTime { seconds: 0 }, starttime: None, \
    endtime: KTime { seconds: 253402300799 }, renew_till: None, srealm: KerberosString { bytes: [65, 46, 66] }, \
    sname: Name { name_type: 3, components: Seq { items: [KerberosString { bytes: [104, 111, 115, 116] }, \
    KerberosString { bytes: [98] }] } }, caddr: None } })";

/// An EncAPRepPart with each field.
pub const AP_REPLY: &str = "\
    7b4c304aa011180f32303234303130313030303030305aa103020107a22b3029a003020112a1220420000102030405060708\
    090a0b0c0d0e0f101112131415161718191a1b1c1d1e1fa303020101";

pub const AP_REPLY_VALUE: &str = "\
    Ok(EncApRepPart { ctime: KTime { seconds: 1704067200 }, cusec: Microseconds { value: 7 }, subkey: Some(Typed { \
    number: 18, octets: Octets { bytes: [0, 1, 2, 3, 4, 5, 6, 7, 8, 9, 10, 11, 12, 13, 14, 15, 16, 17, 18, 19, 20, \
    21, 22, 23, 24, 25, 26, 27, 28, 29, 30, 31] } }), seq_number: Some(UInt32 { value: 1 }) })";

/// A PA-ENC-TS-ENC.
pub const TIMESTAMP: &str = "301aa011180f32303234303130313030303030305aa10502030f423f";

pub const TIMESTAMP_VALUE: &str = "\
    Ok(PaEncTsEnc { patimestamp: KTime { seconds: 1704067200 }, pausec: Some(Microseconds { value: 999999 }) })";

/// An ETYPE-INFO2 with an entry of each field and one without optional fields.
pub const ETYPE_INFO2: &str = "\
    301e\
    3015a003020112a1061b04412e4275a206040400001000\
    3005a003020111";

pub const ETYPE_INFO2_VALUE: &str = "\
    Ok(Seq { items: [EtypeInfo2Entry { etype: 18, salt: Some(KerberosString { bytes: [65, 46, 66, 117] }), \
    s2kparams: Some(Octets { bytes: [0, 0, 16, 0] }) }, EtypeInfo2Entry { etype: 17, salt: None, s2kparams: None }] \
    })";

/// A METHOD-DATA that asks for a timestamp of types 20 and 18.
pub const METHOD_DATA: &str = "\
    3036\
    3029a103020113a2220420301e300da003020114a1061b04412e4275300da003020112a1061b04412e4275\
    3009a103020102a2020400";

pub const METHOD_DATA_VALUE: &str = "\
    Ok(Seq { items: [PaData { padata_type: 19, padata_value: Octets { bytes: [48, 30, 48, 13, 160, 3, 2, 1, 20, 161, \
    6, 27, 4, 65, 46, 66, 117, 48, 13, 160, 3, 2, 1, 18, 161, 6, 27, 4, 65, 46, 66, 117] } }, PaData { padata_type: \
    2, padata_value: Octets { bytes: [] } }] })";

/// An ETYPE-INFO2-ENTRY with each field.
pub const ETYPE_INFO2_ENTRY: &str = "3015a003020112a1061b04412e4275a206040400001000";

pub const ETYPE_INFO2_ENTRY_VALUE: &str = "\
    Ok(EtypeInfo2Entry { etype: 18, salt: Some(ByteStringRef { bytes: [65, 46, 66, 117] }), s2kparams: \
    Some(ByteStringRef { bytes: [0, 0, 16, 0] }) })";

/// The value of the AS-REQ as a TGS-REQ.
pub const AS_REQ_AS_TGS_REQ_VALUE: &str = "\
    Ok(Under { value: KdcReq { pvno: 5, msg_type: 12, padata: None, body: ReqBody { kdc_options: Flags { bits: 0 }, \
    cname: Some(Name { name_type: 1, components: Seq { items: [KerberosString { bytes: [117] }] } }), realm: \
    KerberosString { bytes: [65, 46, 66] }, sname: Some(Name { name_type: 2, components: Seq { items: \
    [KerberosString { bytes: [107, 114, 98, 116, 103, 116] }, KerberosString { bytes: [65, 46, 66] }] } }), from: \
    None, till: KTime { seconds: 0 }, rtime: None, nonce: UInt32 { value: 1 }, etype: Seq { items: [18] }, \
    addresses: None, enc_authorization_data: None, additional_tickets: None } } })";

/// An AS-REP from a Python program, with the types of RFC 4120, section 5.4.2.
pub const AS_REP: &str = "\
    6b82022a30820226a003020105a10302010ba21e301c301aa103020113a2130411300f300da003020112a1061b04412e4275\
    a3051b03412e42a40e300ca003020101a10530031b0175a581f76181f43081f1a003020105a1051b03412e42a2183016a003\
    020102a10f300d1b066b72627467741b03412e42a381c83081c5a003020112a103020101a281b80481b5d9b75292c61ec484\
    0b7f27e65376503c25f01ed8011dfa62d2cde0622dba3c7f3265938c5931da14a6b5272fd76b685afb28d59cb5280a14e206\
    87a8a529f99793a0c873959a64993523d75c241ca601b52192ceedba47ec2e9e30be9b526a0b47e856e9ca58bc033aaf1b47\
    f382c51435b71c8ab67519cab609de30f4e3ed00dfa3df5864cedd9475d1e8d1f3d52fd51eccfe276563f2ddbc19b8cc9701\
    cd9d36ddd5dc58ad28542d179e5261cf370d6fc234d835a681e83081e5a003020112a103020101a281d80481d5ad51c5c98c\
    71eed310bd86fd6b1316269b70eb0539702eab6d604f730b7b52403ebbdd337c5512cee5c3cf7813a608ed4b373f4f0efbe0\
    118ecbabcdf66760c6a513561177ae30ed5f9f39f42be4f67dda9449bdcb73e780fd1dc49d8a50c829ab34630cd294895c9d\
    b736f7431c55bd187bad5d83807a6ccf46952befc68a9e658b8a2076453834d0bec88c41b7f076924ede04e7b57f273cf3c8\
    80baa95d4997b7f18085befac00293589b7c249c090a31a43df2ee67c5e2670e83814a31b9a6455d2a6b168da080206f8c9f\
    dd6967b900f9e18e";
