//! Vectors of HMAC, PBKDF2, n-fold, the key derivation of RFC 8009 and keys from passwords: the standards' own, and
//! those of Python's hashlib and hmac.
use crate::cryptography::fixtures::BASE_256;

/// A key or password, its text, label or salt, its iterations, and what functions make of these: words, each with the
/// function's name and the digits.
pub type Row = (&'static str, &'static str, u32, &'static str);

/// Keys and texts as they are.
pub const TEXTS: &[Row] = &[
    // RFC 6070, section 2, without the case of 16,777,216 iterations; and, for SHA-256 and SHA-384, Python's hashlib.
    (
        "password",
        "salt",
        1,
        "\
        pbkdf2-sha1:0c60c80f961f0e71f3a9b524af6012062fe037a6 \
        pbkdf2-sha256:120fb6cffcf8b32c43e7225256c4f837a86548c92ccc35480805987cb70be17b \
        pbkdf2-sha384:c0e14f06e49e32d73f9f52ddf1d0c5c7191609233631dadd76a567db42b78676b38fc800cc53ddb642f5c74442e6\
        2be4",
    ),
    (
        "password",
        "salt",
        2,
        "pbkdf2-sha1:ea6c014dc72d6f8ccd1ed92ace1d41f0d8de8957",
    ),
    (
        "password",
        "salt",
        4096,
        "pbkdf2-sha1:4b007901b765489abead49d926f721d065a429c1",
    ),
    (
        "passwordPASSWORDpassword",
        "saltSALTsaltSALTsaltSALTsaltSALTsalt",
        4096,
        "pbkdf2-sha1:3d2eec4fe41c849b80c8d83662c0e44a8b291a964cf2f07038",
    ),
    (
        "pass\x00word",
        "sa\x00lt",
        4096,
        "pbkdf2-sha1:56fa6aa75548099dcc37d7f03425e0c3",
    ),
    // RFC 3962, appendix B: the keys, and PBKDF2 of 256 bits, also one of 128 bits.
    (
        "password",
        "ATHENA.MIT.EDUraeburn",
        1,
        "\
        pbkdf2-sha1:cdedb5281bb2f801565a1122b25635150ad1f7a04bb9f3a333ecc0e2e1f70837 \
        pbkdf2-sha1:cdedb5281bb2f801565a1122b2563515 \
        key-17:42263c6e89f4fc28b8df68ee09799f15 \
        key-18:fe697b52bc0d3ce14432ba036a92e65bbb52280990a2fa27883998d72af30161",
    ),
    (
        "password",
        "ATHENA.MIT.EDUraeburn",
        2,
        "\
        pbkdf2-sha1:01dbee7f4a9e243e988b62c73cda935da05378b93244ec8f48a99e61ad799d86 \
        key-17:c651bf29e2300ac27fa469d693bdda13 \
        key-18:a2e16d16b36069c135d5e9d2e25f896102685618b95914b467c67622225824ff",
    ),
    (
        "password",
        "ATHENA.MIT.EDUraeburn",
        1200,
        "\
        pbkdf2-sha1:5c08eb61fdf71e4e4ec3cf6ba1f5512ba7e52ddbc5e5142f708a31e2e62b1e13 \
        key-17:4c01cd46d632d01e6dbe230a01ed642a \
        key-18:55a6ac740ad17b4846941051e1e8b0a7548d93b0ab30a8bc3ff16280382b8c2a",
    ),
    (
        "password",
        "\x124VxxV4\x12",
        5,
        "\
        pbkdf2-sha1:d1daa78615f287e6a1c8b120d7062a493f98d203e6be49a6adf4fa574b6e64ee \
        key-17:e9b23d52273747dd5c35cb55be619d8e \
        key-18:97a4e786be20d81a382d5ebc96d5909cabcdadc87ca48f574504159f16c36e31",
    ),
    (
        "XXXXXXXXXXXXXXXXXXXXXXXXXXXXXXXXXXXXXXXXXXXXXXXXXXXXXXXXXXXXXXXX",
        "pass phrase equals block size",
        1200,
        "\
        pbkdf2-sha1:139c30c0966bc32ba55fdbf212530ac9c5ec59f1a452f5cc9ad940fea0598ed1 \
        key-17:59d1bb789a828b1aa54ef9c2883f69ed \
        key-18:89adee3608db8bc71f1bfbfe459486b05618b70cbae22092534e56c553ba4b34",
    ),
    (
        "XXXXXXXXXXXXXXXXXXXXXXXXXXXXXXXXXXXXXXXXXXXXXXXXXXXXXXXXXXXXXXXXX",
        "pass phrase exceeds block size",
        1200,
        "\
        pbkdf2-sha1:9ccad6d468770cd51b10e6a68721be611a8b4d282601db3b36be9246915ec82a \
        key-17:cb8005dc5f90179a7f02104c0018751d \
        key-18:d78c5c9cb872a8c9dad4697f0bb5b2d21496c82beb2caeda2112fceea057401b",
    ),
    (
        "\u{1d11e}",
        "EXAMPLE.COMpianist",
        50,
        "\
        pbkdf2-sha1:6b9cf26d45455a43a5b8bb276a403b39e7fe37a0c41e02c281ff3069e1e94f52 \
        key-17:f149c1f2e154a73452d43e7fe62a56e5 \
        key-18:4b6d9839f84406df1f09cc166db4b83c571848b784a3d6bdc346589a3e393f9e",
    ),
    // By Python's hashlib: less than a block, more than two, and none.
    (
        "pass\x00word",
        "sa\x00lt",
        7,
        "\
        pbkdf2-sha256:e0f582c3417af7dccdfce0801ba16983bf495eee \
        pbkdf2-sha384:a3e51fb8708b44050514548a24558bf6e718d26f1671c29013c0bf59920369ad",
    ),
    (
        "passwordPASSWORDpassword",
        "ATHENA.MIT.EDUraeburn",
        100,
        "\
        pbkdf2-sha256:690244d54fa7e3be6fa3b8cf33567fe653e71683432c052e4d66faa63414f973b6dfd9994106079cf6112de57e6a\
        53689ed180d5c4531838a05ec1ab2e02830c52 \
        pbkdf2-sha384:b4cadd751c175ad681a1a9b5e38828d2e21398e06a670e146565596d6a175e0227ec6cfdc7c42fb8412614c53772\
        89dab3661d2c2974494e362e7319d4191c8da87f15df851c68bb4e23f2140e63dc07fabca4f0db50092220b4cd768ec6a1c92c",
    ),
    (
        "password",
        "salt",
        3,
        "\
        pbkdf2-sha256: \
        pbkdf2-sha384:",
    ),
    // RFC 3961, appendix A.1.
    ("", "012345", 1, "n-fold:be072631276b1955"),
    (
        "",
        "password",
        1,
        "\
        n-fold:78a07b6caf85fa \
        n-fold:59e4a8ca7c0385c3c37b3f6d2000247cb6e6bd5b3e",
    ),
    (
        "",
        "Rough Consensus, and Running Code",
        1,
        "n-fold:bb6ed30870b7f0e0",
    ),
    (
        "",
        "MASSACHVSETTS INSTITVTE OF TECHNOLOGY",
        1,
        "n-fold:db3b0d8f0b061e603282b308a50841229ad798fab9540c1b",
    ),
    (
        "",
        "Q",
        1,
        "n-fold:518a54a215a8452a518a54a215a8452a518a54a215",
    ),
    (
        "",
        "ba",
        1,
        "n-fold:fb25d531ae8974499f52fd92ea9857c4ba24cf297e",
    ),
    (
        "",
        "kerberos",
        1,
        "\
        n-fold:6b65726265726f73 \
        n-fold:6b65726265726f737b9b5b2b93132b93 \
        n-fold:8372c236344e5f1550cd0747e15d62ca7a5a3bcea4 \
        n-fold:6b65726265726f737b9b5b2b93132b935c9bdcdad95c9899c4cae4dee6d6cae4",
    ),
];

/// The shorter base key of RFC 8009, appendix A.
const BASE_128: &str = "3705d96080c17728a0e800eab6e0d23c";

/// Keys and texts in digits.
pub const DIGITS: &[Row] = &[
    // RFC 2202, section 3, and RFC 4231, section 4. Case 5 has the first bytes with SHA-256 and SHA-384.
    (
        "0b0b0b0b0b0b0b0b0b0b0b0b0b0b0b0b0b0b0b0b",
        "4869205468657265",
        1,
        "\
        hmac-sha1:b617318655057264e28bc0b6fb378c8ef146be00 \
        hmac-sha256:b0344c61d8db38535ca8afceaf0bf12b881dc200c9833da726e9376c2e32cff7 \
        hmac-sha384:afd03944d84895626b0825f4ab46907f15f9dadbe4101ec682aa034c7cebc59cfaea9ea9076ede7f4af152e8b2fa9c\
        b6",
    ),
    (
        "4a656665",
        "7768617420646f2079612077616e7420666f72206e6f7468696e673f",
        1,
        "\
        hmac-sha1:effcdf6ae5eb2fa2d27416d5f184df9c259a7c79 \
        hmac-sha256:5bdcc146bf60754e6a042426089575c75a003f089d2739839dec58b964ec3843 \
        hmac-sha384:af45d2e376484031617f78d2b58a6b1b9c7ef464f5a01b47e42ec3736322445e8e2240ca5e69e2c78b3239ecfab216\
        49",
    ),
    (
        "aaaaaaaaaaaaaaaaaaaaaaaaaaaaaaaaaaaaaaaa",
        "dddddddddddddddddddddddddddddddddddddddddddddddddddddddddddddddddddddddddddddddddddddddddddddddddddd",
        1,
        "\
        hmac-sha1:125d7342b9ac11cd91a39af48aa17b4f63f175d3 \
        hmac-sha256:773ea91e36800e46854db8ebd09181a72959098b3ef8c122d9635514ced565fe \
        hmac-sha384:88062608d3e6ad8a0aa2ace014c8a86f0aa635d947ac9febe83ef4e55966144b2a5ab39dc13814b94e3ab6e101a34f\
        27",
    ),
    (
        "0102030405060708090a0b0c0d0e0f10111213141516171819",
        "cdcdcdcdcdcdcdcdcdcdcdcdcdcdcdcdcdcdcdcdcdcdcdcdcdcdcdcdcdcdcdcdcdcdcdcdcdcdcdcdcdcdcdcdcdcdcdcdcdcd",
        1,
        "\
        hmac-sha1:4c9007f4026250c6bc8414f9bf50c86c2d7235da \
        hmac-sha256:82558a389a443c0ea4cc819899f2083a85f0faa3e578f8077a2e3ff46729665b \
        hmac-sha384:3e8a69b7783c25851933ab6290af6ca77a9981480850009cc5577c6e1f573b4e6801dd23c4a7d679ccf8a386c674cf\
        fb",
    ),
    (
        "0c0c0c0c0c0c0c0c0c0c0c0c0c0c0c0c0c0c0c0c",
        "546573742057697468205472756e636174696f6e",
        1,
        "\
        hmac-sha1:4c1a03424b55e07fe7f27be1d58bb9324a9a5a04 \
        hmac-sha256:a3b6167473100ee06e0c796c2955552b \
        hmac-sha384:3abf34c3503b2a23a46efc619baef897",
    ),
    (
        "\
        aaaaaaaaaaaaaaaaaaaaaaaaaaaaaaaaaaaaaaaaaaaaaaaaaaaaaaaaaaaaaaaaaaaaaaaaaaaaaaaaaaaaaaaaaaaaaaaaaa\
        aaaaaaaaaaaaaaaaaaaaaaaaaaaaaaaaaaaaaaaaaaaaaaaaaaaaaaaaaaaaaa",
        "\
        54657374205573696e67204c6172676572205468616e20426c6f636b2d53697a65204b6579202d2048617368204b657920\
        4669727374",
        1,
        "hmac-sha1:aa4ae5e15272d00e95705637ce8a3b55ed402112",
    ),
    (
        "\
        aaaaaaaaaaaaaaaaaaaaaaaaaaaaaaaaaaaaaaaaaaaaaaaaaaaaaaaaaaaaaaaaaaaaaaaaaaaaaaaaaaaaaaaaaaaaaaaaaa\
        aaaaaaaaaaaaaaaaaaaaaaaaaaaaaaaaaaaaaaaaaaaaaaaaaaaaaaaaaaaaaa",
        "\
        54657374205573696e67204c6172676572205468616e20426c6f636b2d53697a65204b657920616e64204c617267657220\
        5468616e204f6e6520426c6f636b2d53697a652044617461",
        1,
        "hmac-sha1:e8e99d0f45237d786d6bbaa7965c7808bbff1a91",
    ),
    (
        "\
        aaaaaaaaaaaaaaaaaaaaaaaaaaaaaaaaaaaaaaaaaaaaaaaaaaaaaaaaaaaaaaaaaaaaaaaaaaaaaaaaaaaaaaaaaaaaaaaaaa\
        aaaaaaaaaaaaaaaaaaaaaaaaaaaaaaaaaaaaaaaaaaaaaaaaaaaaaaaaaaaaaaaaaaaaaaaaaaaaaaaaaaaaaaaaaaaaaaaaaa\
        aaaaaaaaaaaaaaaaaaaaaaaaaaaaaaaaaaaaaaaaaaaaaaaaaaaaaaaaaaaaaaaaaa",
        "\
        54657374205573696e67204c6172676572205468616e20426c6f636b2d53697a65204b6579202d2048617368204b657920\
        4669727374",
        1,
        "\
        hmac-sha256:60e431591ee0b67f0d8a26aacbf5b77f8e0bc6213728c5140546040f0ee37f54 \
        hmac-sha384:4ece084485813e9088d2c63a041bc5b44f9ef1012a2b588f3cd11f05033ac4c60c2ef6ab4030fe8296248df163f449\
        52",
    ),
    (
        "\
        aaaaaaaaaaaaaaaaaaaaaaaaaaaaaaaaaaaaaaaaaaaaaaaaaaaaaaaaaaaaaaaaaaaaaaaaaaaaaaaaaaaaaaaaaaaaaaaaaa\
        aaaaaaaaaaaaaaaaaaaaaaaaaaaaaaaaaaaaaaaaaaaaaaaaaaaaaaaaaaaaaaaaaaaaaaaaaaaaaaaaaaaaaaaaaaaaaaaaaa\
        aaaaaaaaaaaaaaaaaaaaaaaaaaaaaaaaaaaaaaaaaaaaaaaaaaaaaaaaaaaaaaaaaa",
        "\
        5468697320697320612074657374207573696e672061206c6172676572207468616e20626c6f636b2d73697a65206b6579\
        20616e642061206c6172676572207468616e20626c6f636b2d73697a6520646174612e20546865206b6579206e65656473\
        20746f20626520686173686564206265666f7265206265696e6720757365642062792074686520484d414320616c676f72\
        6974686d2e",
        1,
        "\
        hmac-sha256:9b09ffa71b942fcb27635fbcd5b0e944bfdc63644f0713938a7f51535c3a35e2 \
        hmac-sha384:6617178e941f020d351e2f254e8fd32c602420feb0b8fb9adccebb82461e99c5a678cc31e799176d3860e6110c4652\
        3e",
    ),
    // RFC 8009, appendix A: Kc, Ke and Ki for usage 2, under its base keys. The last row is by Python's hmac.
    (
        BASE_128,
        "0000000299",
        1,
        "kdf-sha256:b31a018a48f54776f403e9a396325dc3",
    ),
    (
        BASE_128,
        "00000002aa",
        1,
        "kdf-sha256:9b197dd1e8c5609d6e67c3e37c62c72e",
    ),
    (
        BASE_128,
        "0000000255",
        1,
        "kdf-sha256:9fda0e56ab2d85e1569a688696c26a6c",
    ),
    (
        BASE_128,
        "6b65726265726f73",
        1,
        "kdf-sha256:3e1e4a3d2f5a5d72c0d51b0ebf0c2b7f442b4c1ea020b7a4ed927f24a694a618",
    ),
    (
        BASE_256,
        "0000000299",
        1,
        "kdf-sha384:ef5718be86cc84963d8bbb5031e9f5c4ba41f28faf69e73d",
    ),
    (
        BASE_256,
        "00000002aa",
        1,
        "kdf-sha384:56ab22bee63d82d7bc5227f6773f8ea7a5eb1c825160c38312980c442e5c7e49",
    ),
    (
        BASE_256,
        "0000000255",
        1,
        "kdf-sha384:69b16514e3cd8e56b82010d5c73012b622c4d00ffc23ed1f",
    ),
    (
        BASE_256,
        "6b65726265726f73",
        1,
        "\
        kdf-sha384:65172ef4e205b88bc7a83be040aabd54f4b53dcdfe1e037beacc3e6e5cccbeee3bdf1cc962875ff44cf36cb2bada3e9\
        4",
    ),
    // RFC 8009, appendix A: the password is `password`, the salt random bytes and a default salt.
    (
        "70617373776f7264",
        "10df9dd783e5bc8acea1730e74355f61415448454e412e4d49542e4544557261656275726e",
        32768,
        "\
        key-19:089bca48b105ea6ea77ca5d2f39dc5e7 \
        key-20:45bd806dbf6a833a9cffc1c94589a222367a79bc21c413718906e9f578a78467",
    ),
];
