//! AP-REQs and an AP-REP in hexadecimal digits and names of parts (`messages.rt`), from an independent model of the
//! messages and of the cryptography in Python.
//!
//! The key of `h` in `A.B` is the bytes 160 to 191, with encryption type 18 and version 1. The session key is the bytes
//! 64 to 95, with the same type. The moment is the start of 2024. The messages are texts because long lists of bytes
//! take minutes to check.
use crate::acceptor::made::Made;
use crate::asking::{MIDNIGHT, USER};
use crate::contents::Terms;
use enctypes::Etype;

/// An AP-REQ of `u`, 5 microseconds after the moment, with a subkey, a sequence number, a checksum and MUTUAL-REQUIRED.
pub const MUTUAL: &str = "\
    6e82019430820190a003020105a10302010ea20703050020000000 TICKET_FOR_H OTHER_SEALED \
    a4819d30819aa003020112a2819204818fb600a723d2792a1cc4a16613dff02fbce7e5d1b67326bc5304bb15fe9771934341\
    c1a248257679154598631d9281f251feee0a2f9f0b534ac99bb716817dd31a84598afb533840b4a54dd6c9e82efa80297988\
    97f0a0a9630dac3e35bc173a2f2b58c8eb1d4042a5bde29210472bde6bffa875a9b4597c59c5337235ba6bd316296824035d\
    df756cf2b37e1da0852c";

/// Its contents. The confounder of the AP-REP is the bytes 48 to 63.
pub const MADE_IN_PYTHON: &[Made] = &[Made {
    ap_req: MUTUAL,
    ticket_cipher: (86, 248),
    authenticator_cipher: (265, 408),
    client: USER,
    etype: Etype::Aes256CtsHmacSha1_96,
    session_key: "404142434445464748494a4b4c4d4e4f505152535455565758595a5b5c5d5e5f",
    subkey: Some((
        Etype::Aes128CtsHmacSha1_96,
        "000102030405060708090a0b0c0d0e0f",
    )),
    number: Some(7),
    cksum: Some((16, "c8c9cacbcccdcecfd0d1d2d3")),
    terms: Terms {
        flags: 0,
        authtime: MIDNIGHT,
        starttime: None,
        endtime: MIDNIGHT + 36_000,
        renew_till: None,
    },
    ap_rep: Some(
        "\
        6f51304fa003020105a10302010fa2433041a003020112a23a04385b76243a190944df09ab9a6d34d9b98095fa7b54417d5d\
        591b705aac83b09dffea74205ac502cd2b61e0c85be9694c148a54dd5bb4e43da2",
    ),
}];

/// An AP-REQ of `u`, a microsecond later.
pub const SECOND: &str = "\
    AP_REQ_HEAD TICKET_FOR_H OTHER_SEALED a45f305da003020112a2560454b600a723d2792a1cc4a16613dff02fbcd6bf\
    ed281f40ebee09e7fda4cee1085db46d61c82806f9e934484e446ef71f2223238862b84ef97aa162f814579ff84a13e26db4\
    cbbe173113251ba3c2a7436e61e35ed3";

/// An AP-REQ of `v`, 5 microseconds after the moment.
pub const OTHER_CLIENT: &str = "\
    AP_REQ_HEAD TICKET_FOR_H bbe852a8491a7ee32e4d5896a26bff7f2d35eef2329533f2e9bce379ccd7746514180e0986\
    ccf342ddba5e628dab2bd9a3154530b115ca01dda6562c94a5abe423679ee6b10c91a5f02d7e5b1815d952cba5c5c4690733\
    209be5c2b4db6099ede5651bdd6812293aca0dfd933d432cc0d5213f64773d3d11e7af8335916e278328721e2f5cb9622899\
    fd996f861af36931c3b14379807beb8df7189543e6ca188514 a45f305da003020112a2560454b600a723d2792a1cc4a166\
    13dff02fbcd6bfed281f40ebee09e7fda4cee1085d10f7b28dc721b45f835d76ff37a13a99ae3e294879e015a5bdf4d7f78a\
    5da764429ca2e9670c25240e5ee832833c191383170bd2";

/// AP-REQs, each with the code of its refusal, or 0. The rules are those of the request and of its ticket.
pub const CODES: &[(i32, &str)] = &[
    // another version
    (
        39,
        "6e82015530820151a003020104a10302010ea20703050000000000 TICKET_FOR_H SEALED STAMP",
    ),
    // a ticket of another version
    (
        39,
        "\
        AP_REQ_HEAD a381da6181d73081d4a003020104a1051b03412e42a20e300ca003020101a10530031b0168a381b53081b2a0\
        03020112a103020101a281a50481a2 SEALED STAMP",
    ),
    // another message type
    (
        40,
        "6e82015530820151a003020105a10302010fa20703050000000000 TICKET_FOR_H SEALED STAMP",
    ),
    // USE-SESSION-KEY
    (
        45,
        "6e82015530820151a003020105a10302010ea20703050040000000 TICKET_FOR_H SEALED STAMP",
    ),
    // another realm's ticket
    (
        35,
        "\
        AP_REQ_HEAD a381da6181d73081d4a003020105a1051b03412e43a20e300ca003020101a10530031b0168a381b53081b2a0\
        03020112a103020101a281a50481a2 SEALED STAMP",
    ),
    // another service
    (
        35,
        "\
        AP_REQ_HEAD a381da6181d73081d4a003020105a1051b03412e42a20e300ca003020101a10530031b0169a381b53081b2a0\
        03020112a103020101a281a50481a2 SEALED STAMP",
    ),
    // an encryption type without a key in the keytab
    (
        45,
        "\
        AP_REQ_HEAD a381da6181d73081d4a003020105a1051b03412e42a20e300ca003020101a10530031b0168a381b53081b2a0\
        03020111a103020101a281a50481a2 SEALED STAMP",
    ),
    // an unsupported encryption type
    (
        45,
        "\
        AP_REQ_HEAD a381da6181d73081d4a003020105a1051b03412e42a20e300ca003020101a10530031b0168a381b53081b2a0\
        03020117a103020101a281a50481a2 SEALED STAMP",
    ),
    // a key version without a key in the keytab
    (
        44,
        "\
        AP_REQ_HEAD a381da6181d73081d4a003020105a1051b03412e42a20e300ca003020101a10530031b0168a381b53081b2a0\
        03020112a103020102a281a50481a2 SEALED STAMP",
    ),
    // a key version below zero
    (
        44,
        "\
        AP_REQ_HEAD a381da6181d73081d4a003020105a1051b03412e42a20e300ca003020101a10530031b0168a381b53081b2a0\
        03020112a1030201ffa281a50481a2 SEALED STAMP",
    ),
    // a ticket under another key
    (
        31,
        "\
        AP_REQ_HEAD TICKET_FOR_H 5efc5ab4c492bf744338ca869916884652a81c265ce091dcb5be07910bb520628cf57ff174\
        3ee3a07abadbcba3761f904af7588a91525f596e86f722aed368dc22db4410258d27d04c9290346dba68448dc8df4f0f5c63\
        7f0c555a1fa0bf64708784808880ba302b4916e8c28307fd084bd1a4b7b44cf0ac48f42e557d0eb8cf2d8b1f5594f4db0d87\
        a75e7d6a7327ab1b1861162a218c254f59a79461f8cf4ec318 STAMP",
    ),
    // a client of another realm
    (
        51,
        "\
        AP_REQ_HEAD TICKET_FOR_H bbe852a8491a7ee32e4d5896a26bff7f00a60b9f192dd41b6e85a48ff92d1a50506e0a52f3\
        eba5ca18ffc70dab529d464bc6ed6f628bd350399fb0e37444fce09e5865cab2aba53dbdf1b35860cf8834b9a7f05fa815cd\
        feaf898388b3b283f3c1ba747814f3faf1ec18513bb20b4f595d2e4746d4d247dc1b033d2f4c998c29a774f5378152943c81\
        a75ab0cf23406010e3b66eaa6c9110de30a8d869a2355442c5 a45f305da003020112a2560454b600a723d2792a1cc4a166\
        13dff02fbc087b0debe0097406e6a9e2bac687a746e136182f106d7faad3a514bb6f60afdee3f4e95137e87c82a22ca35e35\
        f56d44b45459407f6488a524c03d0d9e3328fd8b237c9c",
    ),
    // an empty list of addresses
    (
        38,
        "\
        6e82015930820155a003020105a10302010ea20703050000000000 a381de6181db3081d8a003020105a1051b03412e42a2\
        0e300ca003020101a10530031b0168a381b93081b6a003020112a103020101a281a90481a6bbe852a8491a7ee32e4d5896a2\
        6bff7fbb9e20ee249396c713ec219324fb1981c0813ec2a66c93a678d159b1d0a91a88a3b70042d96628c35f86de60996102\
        eb739a16ef47c20cec97c9f1d0e7e3e77eb89804b4735c322f698c683b2cc21d9f4fd2dfa755b43d8d660c2a3faf27fbc342\
        114c5676072183e89a4dd16bb9ae8e8a40c85effe6ae994500c07ab7b70a538e530c459f20960949be222f25b8a9b690b54b\
        6e37e5 STAMP",
    ),
    // a session key of another type
    (
        14,
        "\
        6e8201433082013fa003020105a10302010ea20703050000000000 a381c86181c53081c2a003020105a1051b03412e42a2\
        0e300ca003020101a10530031b0168a381a33081a0a003020112a103020101a28193048190bbe852a8491a7ee32e4d5896a2\
        6bff7f5318cf5e9fd628aa546bd4f507aabdb284362525009065df7f6e07119978e46738aff8e00f999f84e7c08a6bcfd8c2\
        bf6eaa21c3c892144a0e55024a499075eea147ccf3f840bfcece835b454b0801058eb3b9f1c35b4f0ee672e055d705a85b81\
        f636166407a87e0ccb55c492264409500e6258b3c28eaa2b071768b295a3ab STAMP",
    ),
];

/// More of them: the rules are those of the authenticator and of times.
pub const LATER_CODES: &[(i32, &str)] = &[
    // an authenticator of another type
    (
        31,
        "\
        AP_REQ_HEAD TICKET_FOR_H SEALED a45f305da003020111a2560454b600a723d2792a1cc4a16613dff02fbcd6bfed281f\
        40ebee09e7fda4cee1085db46d61c82806f9e934484e446ef71f22629a7a73a5c5ab53348c634b8bdfe958228241175519bf\
        1e1be02020f875b6211f97906f",
    ),
    // an authenticator under another key
    (
        31,
        "\
        AP_REQ_HEAD TICKET_FOR_H SEALED a45f305da003020112a256045420e775e6c932420af44f8cb9d2cf1351ee09587094\
        b91ca07856e5d1072dc4a2ddd035b74f5a31de29cdeece063ae94313c9cf9422330ceacc01c981f239c67f31cd276a43350f\
        189ea0061f51c6a42fc14b2059",
    ),
    // an authenticator of another client
    (
        36,
        "\
        AP_REQ_HEAD TICKET_FOR_H SEALED a45f305da003020112a2560454b600a723d2792a1cc4a16613dff02fbcd6bfed281f\
        40ebee09e7fda4cee1085d10f7b28dc721b45f835d76ff37a13a992fbb2a3f38f11fb41c212a781c51df25efa9f889b7b413\
        6ef4245f961800aad15c98f928",
    ),
    // an authenticator of another realm
    (
        36,
        "\
        AP_REQ_HEAD TICKET_FOR_H SEALED a45f305da003020112a2560454b600a723d2792a1cc4a16613dff02fbc087b0debe0\
        097406e6a9e2bac687a746e136182f106d7faad3a514bb6f60afdee3f4e95137e87c82a22ca35e35f56d44b45459407f6488\
        a524c03d0d9e3328fd8b237c9c",
    ),
    // a subkey of another type
    (
        14,
        "\
        6e8201723082016ea003020105a10302010ea20703050000000000 TICKET_FOR_H SEALED \
        a47c307aa003020112a2730471b600a723d2792a1cc4a16613dff02fbc1917c9d1f910cec2e7aeaebe66f10e0d5cf0bf863f\
        26d9f8dda218c60bedbdf3142c7facd339c168f73c1d5ed0cbfc31ada442777426347018808a7c2d1c5fa422b1da6d82de78\
        aee0e2969d2beb7ed7fd596f6c4f71fc4f46d08051e615372d69",
    ),
    // a time 301 seconds later
    (
        37,
        "\
        AP_REQ_HEAD TICKET_FOR_H SEALED a45f305da003020112a2560454b600a723d2792a1cc4a16613dff02fbcd6bfed281f\
        40ebee09e7fda4cee1085db46d61c82806f9e934484e446ef71f2231a83fbf5f70428f4d166fc1cfac8fa5228241175519bf\
        1e04e152643d16428f646918fe",
    ),
    // a start 301 seconds later
    (
        33,
        "\
        6e82016830820164a003020105a10302010ea20703050000000000 a381ed6181ea3081e7a003020105a1051b03412e42a2\
        0e300ca003020101a10530031b0168a381c83081c5a003020112a103020101a281b80481b5bbe852a8491a7ee32e4d5896a2\
        6bff7f7a831a9a3b9f93c93f372170e738a80f9610fd28a8454d0dd4ed723d98917d40ef0aa809442f150bd389be706898bc\
        c90487b1f80afb9de9ef13a4fde93d8d112588533564c5d39f86f18fb57f5fb36a122d0a70fe7103bfceeab7d0d6271c47b0\
        396c463ae6921b6da6f029d9524359e6ca01ae11a1bae2287de6b72ed9e855aea2de7165fa1141c8e87efc1689599d7ccebe\
        bb5f313068a705017975a1e7c475d1e6da7f a45f305da003020112a2560454b600a723d2792a1cc4a16613dff02fbcd6bf\
        ed281f40ebee09e7fda4cee1085db46d61c82806f9e934484e446ef71f2254cf56ebe545a498125f6e79f207a794b1882bdf\
        2853380a7087314732ba81a0b035fb5f",
    ),
    // the same authenticator
    (
        34,
        "\
        AP_REQ_HEAD TICKET_FOR_H SEALED a45f305da003020112a2560454b600a723d2792a1cc4a16613dff02fbcd6bfed281f\
        40ebee09e7fda4cee1085db46d61c82806f9e934484e446ef71f2254cf56ebe545a498125f6e79f207a794b1882bdf285338\
        0a7087314732ba81a0b035fb5f",
    ),
    // INVALID
    (
        33,
        "\
        AP_REQ_HEAD TICKET_FOR_H bbe852a8491a7ee32e4d5896a26bff7f456877479b8f41479e8f6e7ae233f961a7e3872032\
        496b1227f237c1499afb5b09547c5d7f70dc10b3ce93e0dcaf327ac1284d684d4db751a45bba7b1975ece10d5780a83da628\
        0617dabb22183d0508d6c07c849fe17b16aba87bc69c4fd05480970547533837073765c522bbc88f5859773c0d038d72224a\
        0d347a17f36f51cf1a011bcee151d9d6797f12d2299570752c a45f305da003020112a2560454b600a723d2792a1cc4a166\
        13dff02fbcd6bfed281f40ebee09e7fda4cee1085db46d61c82806f9e934484e446ef71f2267a6fb9b5d46d476aad523fcac\
        320fcdbbd5483cc3475b914cad04f7b66e1207fc2d5169",
    ),
    // an end 301 seconds before
    (
        32,
        "\
        AP_REQ_HEAD TICKET_FOR_H bbe852a8491a7ee32e4d5896a26bff7f00a60b9f192dd41b6e85a48ff92d1a50506e0a52f3\
        eba5ca18ffc70dab529d464bc6ed6f628bd350399fb0e37444fce09e5865cab2aba53dbdf1b35860cf8834aa2c89d4061719\
        affe93e148a3dc9630f2495a83b247fe27b9284ee39e4e446818c422425509b995c6f41d004bce901c96d8d8d4f6809f62ac\
        20e14ee7ffb513ee9354b79194df9dac51ed0df9da2b1a33b1 a45f305da003020112a2560454b600a723d2792a1cc4a166\
        13dff02fbcd6bfed281f40ebee09e7fda4cee1085db46d61c82806f9e934484e446ef71f22ec88ee7f96efac57bfec4070a4\
        bcf7cf7515e5e3a664711fcc17b232b9cd85ee8e1086fb",
    ),
    // Those that are accepted are just within the limits.
    // a start 300 seconds later
    (
        0,
        "\
        6e82016830820164a003020105a10302010ea20703050000000000 a381ed6181ea3081e7a003020105a1051b03412e42a2\
        0e300ca003020101a10530031b0168a381c83081c5a003020112a103020101a281b80481b5bbe852a8491a7ee32e4d5896a2\
        6bff7f7a831a9a3b9f93c93f372170e738a80f9610fd28a8454d0dd4ed723d98917d40ef0aa809442f150bd389be706898bc\
        c90487b1f80afb9de9ef13a4fde93d8d112588533564c5d39f86f18fb57f5fb36a122d0a70fe7103bfceeab7d0d6271c47b0\
        396c463ae6921b6da6f029d9524359e6ca01ae11a1bae2287de6b72ed9e855313339db7bfec14326e53947cdfbbfab179feb\
        4c7cbea8544c623d48f7c623fcba2a74885b a45f305da003020112a2560454b600a723d2792a1cc4a16613dff02fbcd6bf\
        ed281f40ebee09e7fda4cee1085db46d61c82806f9e934484e446ef71f2266e0696531e8ae896db948137360cf692e480007\
        2e9fe023cf60a2e1cb0c34db1168f3d5",
    ),
    // an end 300 seconds before
    (
        0,
        "\
        AP_REQ_HEAD TICKET_FOR_H bbe852a8491a7ee32e4d5896a26bff7f00a60b9f192dd41b6e85a48ff92d1a50506e0a52f3\
        eba5ca18ffc70dab529d464bc6ed6f628bd350399fb0e37444fce09e5865cab2aba53dbdf1b35860cf8834aa2c89d4061719\
        affe93e148a3dc9630f2495a83b247fe27b9284ee39e4e446818c422425509b995c6f41d004bce901c1c30c38eac67915295\
        4ba0b78bf1fdf6ee9354b7919456a6ba77d509221f1b424a91 a45f305da003020112a2560454b600a723d2792a1cc4a166\
        13dff02fbcd6bfed281f40ebee09e7fda4cee1085db46d61c82806f9e934484e446ef71f220aafe79d3fec2a5940f675e8f7\
        37bb26c2586756ff97c3dc95735a00e83dac62e2f85e0e",
    ),
    // no key version
    (
        0,
        "\
        6e8201503082014ca003020105a10302010ea20703050000000000 a381d56181d23081cfa003020105a1051b03412e42a2\
        0e300ca003020101a10530031b0168a381b03081ada003020112a281a50481a2 SEALED \
        a45f305da003020112a2560454b600a723d2792a1cc4a16613dff02fbcd6bfed281f40ebee09e7fda4cee1085db46d61c828\
        06f9e934484e446ef71f22546bda27dc84cdc97fd031f75341b6cf09d2c6c22ca1b01a478f56c1cc55f8ca158cda5c",
    ),
    // a time 300 seconds later
    (
        0,
        "\
        AP_REQ_HEAD TICKET_FOR_H SEALED a45f305da003020112a2560454b600a723d2792a1cc4a16613dff02fbcd6bfed281f\
        40ebee09e7fda4cee1085db46d61c82806f9e934484e446ef71f22163a010a22b6569a67bac82a081373ff228241175519bf\
        1ead1b5993c0c4898e1b70f9fa",
    ),
];

/// The codes where a client has one place in the replay cache.
pub const FULL: &[(i32, &str)] = &[(0, MUTUAL), (29, SECOND), (0, OTHER_CLIENT)];

/// The codes for the first AP-REQ to a service, the first one of another client, and a later one, each twice.
pub const TWICE: &[(i32, &str)] = &[
    (0, MUTUAL),
    (34, MUTUAL),
    (0, OTHER_CLIENT),
    (34, OTHER_CLIENT),
    (0, SECOND),
    (34, SECOND),
];
