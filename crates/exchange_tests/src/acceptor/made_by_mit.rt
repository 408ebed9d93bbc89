//! AP-REQs from MIT's library, made by `tests/services/mk_req.c` with tickets from MIT's `krb5kdc`, both of version
//! 1.20.1 on Debian.
//!
//! The expected contents of each are what that library reads from it, as the tool prints it. The AP-REPs come from an
//! independent model in Python, and the library has accepted each. All bytes are texts of hexadecimal digits, because
//! long lists of bytes take minutes to check.
use crate::acceptor::made::Made;
use crate::contents::Terms;
use enctypes::Etype;

/// The second in which all authenticators were made, since 1970.
pub const MADE_AT: i64 = 1_795_528_176;

/// The keytab of `imap/h17` to `imap/h20` in `A.B`, written by MIT's `kadmin.local`. The number is the type of the key.
/// `imap/h20` has keys of versions 3 and 2.
pub const KEYTAB: &str = "\
    05020000003300020003412e420004696d61700003683137000000016b05959f0100110010643a3a5dccdbd6506aa5baffd7\
    5d0f17000000010000004300020003412e420004696d61700003683138000000016b05959f0100120020a1acaabb586b1e04\
    dcc81514f4210f743cdefcaf921026d2edf0035b45712a7d000000010000003300020003412e420004696d61700003683139\
    000000016b05959f0100130010cf23aaff80bcb3ff95ee58505eff411b000000010000004300020003412e420004696d6170\
    0003683230000000016b05959f0300140020a77db1ebcba37fbb50edd0833aced1951325e5f8ed50cd9faf61ecca20dfd1ed\
    000000030000004300020003412e420004696d61700003683230000000016b05959f020014002079b2aa649071b7a81fc8b0\
    a0fb3fd2650bf13cb6ed75349924611ffad71e4e2900000002";

pub const MADE: &[Made] = &[
    // 17: nothing asked; a ticket without a starttime
    Made {
        ap_req: "\
            6e8201623082015ea003020105a10302010ea20703050000000000a381e56181e23081dfa003020105a1051b03412e42a216\
            3014a003020101a10d300b1b04696d61701b03683137a381b83081b5a003020111a103020101a281a80481a577ed2aa1e921\
            7ea9aab781fc6fc418b3f2e4f4b0a60e9fa540279e433b7ba1ee3f69fbb8e0a59f5be6b327c2c46b36d18610cba073e51d87\
            73eec47c3d56ce852742fa8061303e4b79300e593bb303bb79c69e47b52279d2ffd1db5beeeec5c502570d4de01cd02f94f5\
            1fc90a15b6f20be911b8b51a81765a0ac07519af1e2fb192676b364284ceb7b65f3db5a7da7f5b0eb5dc039a822dff318ba0\
            2f107cd492ecf3bd5ca461305fa003020111a2580456a127ee95a1a870818d0d1ab2bf93ac3c3612411e928155eee1c48281\
            2eb11ac2caa34c6a40da575f207e41dcac642aba5871daf8c210bb6c2efbdc9747535f5928e930c04e7c569c32c8e57d1106\
            722d11c11647689e",
        ticket_cipher: (94, 259),
        authenticator_cipher: (272, 358),
        client: (1, &[b"u"]),
        etype: Etype::Aes128CtsHmacSha1_96,
        session_key: "0a6ed8cac71f6cc34c8f5e5fd89fb42d",
        subkey: None,
        number: None,
        cksum: None,
        terms: Terms {
            flags: 0x40890000,
            authtime: 1_795_528_175,
            starttime: None,
            endtime: 1_795_564_175,
            renew_till: Some(1_796_132_975),
        },
        ap_rep: None,
    },
    // 17: subkey mutual number checksum
    Made {
        ap_req: "\
            6e8201b7308201b3a003020105a10302010ea20703050020000000a381f86181f53081f2a003020105a1051b03412e42a216\
            3014a003020101a10d300b1b04696d61701b03683137a381cb3081c8a003020111a103020101a281bb0481b870231d849aaf\
            e143bd0f0f2f82a0d3b24a3db2acc42191cfd2df8e7f2c16b19b9495d13a10826906ac972ab46d262247ee5fdf7404df345e\
            c2b3536fda6c7dc17172108152ba8697b25313db2797b555fc775e62db6017424e1eb1c7ef426191968a7ffc5751fb1cf5b2\
            8722365e24c6a2d689adf7cbbb90af46833900d7944c30666bbc8284280eb3e2f3a574a6068563b51bb179bf2886d2d679df\
            df7c8461d4d30224e8e5147cfddd1e6367a4b3afdd58c7bab9f3abe7a481a230819fa003020111a28197048194087d5161ce\
            31b8f87926ad2fb66abdd79d1d07b57468c42e1d46b6f6964088fd42ac8f5b30d2781a5a99ef30a83ad5bb9381571b23e506\
            f8d63e442dc3ff4a01d940d68659e3a37771a7d9b8c8be543f32e7a890c6c38eb4ee5c4fc9036c1a89139b77830e57c55c05\
            c5abcebcba039b62e224194e538072b9c6c25a20bc0ad69edee558ad29387563f91ef46195e7d23e68bdf9",
        ticket_cipher: (94, 278),
        authenticator_cipher: (295, 443),
        client: (1, &[b"u"]),
        etype: Etype::Aes128CtsHmacSha1_96,
        session_key: "0fbcc3270ea987a4689d4ab546baba09",
        subkey: Some((
            Etype::Aes128CtsHmacSha1_96,
            "14d4fb84011d0db0b56c29dfcac10da7",
        )),
        number: Some(1_067_776_353),
        cksum: Some((15, "cc14759bb57a7dac29466c6d")),
        terms: Terms {
            flags: 0x40890000,
            authtime: 1_795_528_095,
            starttime: Some(1_795_528_101),
            endtime: 1_795_564_095,
            renew_till: Some(1_796_132_895),
        },
        ap_rep: Some(
            "\
            6f533051a003020105a10302010fa2453043a003020111a23c043aa199bd82e02ad9f27120f6135819d15776a40fb8f96262\
            dafd0a1b493144c7bf23af980c0b502541204af64d9b4c1cb0079c1ff1f528cf7fd102",
        ),
    },
    // 18: mutual; a ticket that can't be renewed
    Made {
        ap_req: "\
            6e8201803082017ca003020105a10302010ea20703050020000000a381fc6181f93081f6a003020105a1051b03412e42a216\
            3014a003020101a10d300b1b04696d61701b03683138a381cf3081cca003020112a103020101a281bf0481bcb219daaeea9c\
            a3daa6c0ba6f721dc5ec91a57f0197ef94a2fa8c29dab9fb95ea8749b69d380bedcf4c168e44cb7c06ca9ad4d2ac4addc400\
            c50a553903c37e76b2cd0a579902e9c13923769911e6438e2997c368e612efbaeb3b54357a2b6f68ef06689b30b310f6fc06\
            462e35243e055e2d9e06b334167db9f9310b8840cb65bd07feb9f12d81a416d039f6495b5aeed175616ba1228f8875f8b6e9\
            599f04331a1c82db5c9e03e8d1165d401d176dd5a0dd5d8a71d3aa806163ff0fa4683066a003020112a25f045d977f104628\
            72b7de1270a2cd1313d884776787f48af0729a0ea026a11a7b5afc0693d8a63b2dfb3a2abb7eb8dca41563e5fdba894c72a1\
            082ca177423e5d626246fe25bfc1c629bdf85064afcf4cd4ce50197f399906222b0b14e396c5",
        ticket_cipher: (94, 282),
        authenticator_cipher: (295, 388),
        client: (1, &[b"u", b"admin"]),
        etype: Etype::Aes256CtsHmacSha1_96,
        session_key: "1410dfc3e1efadfc7bc637a9a4e8029f70fe03be4f7c7337b967591633da98a8",
        subkey: None,
        number: None,
        cksum: None,
        terms: Terms {
            flags: 0x40090000,
            authtime: 1_795_528_095,
            starttime: Some(1_795_528_101),
            endtime: 1_795_564_095,
            renew_till: None,
        },
        ap_rep: Some(
            "\
            6f533051a003020105a10302010fa2453043a003020112a23c043a68ed85ed7a077221155aff7fd0ba4a11b41a2da3e7879f\
            7ea526331261a7f5c741bb912e3bacbcfddc71c43120563c6648505d6605d18aeff01c",
        ),
    },
    // 18: subkey number
    Made {
        ap_req: "\
            6e8201c1308201bda003020105a10302010ea20703050000000000a382010a6182010630820102a003020105a1051b03412e\
            42a2163014a003020101a10d300b1b04696d61701b03683138a381db3081d8a003020112a103020101a281cb0481c889591a\
            766229916957359796b9738074e4c748c132492a705d602403895006f49a0daddae13b21cda8ab60761c5261d12c6f15d22d\
            f2d21c2cbe3e00ce92dd772c84fea48a9d439396565547e710b08870ff25262f741ca607dee9ab8d52fe3d94068403779f88\
            733a9a2c90bc8146df37bad9203eb0d4d11b0d981f0b8b63b84623e5ca3633b6ad9075fe43cbaf0f62a6bb12ce08f786f31f\
            599460389b76e5819cac5c626c2e2079edb5157629a4700550cf90b984109e302fa5801adeb9aff9c561ad8d8c3195a48199\
            308196a003020112a2818e04818b7f599893b91d660a70f8e77608931c62c8651e33915054db6261b45b6fff8dc51dffbf2d\
            2628e9f45103a75ba0a14262da00bee34bc21885af59c12614b26d1eba04fd224ad8e7c0f859a0feba41acc63a5520a12d87\
            fce51484aa2aff3ff5c60fffb14d6888b27f4b93a7b9a3fab3c4fbe1378a2a2e8c02599544c4cabbda595327cfb3a9b4ef53\
            7b5cf8",
        ticket_cipher: (97, 297),
        authenticator_cipher: (314, 453),
        client: (1, &[b"u"]),
        etype: Etype::Aes256CtsHmacSha1_96,
        session_key: "9c20111b2f77ea79142862cbbefd26d8d641ed92ca744bcd3ad1d664257eaf45",
        subkey: Some((
            Etype::Aes256CtsHmacSha1_96,
            "433e5c48dc6cd6d8a1ffe136fa43b751d145a85247556a2892c1b60cd8d282d2",
        )),
        number: Some(350_632_708),
        cksum: None,
        terms: Terms {
            flags: 0x40890000,
            authtime: 1_795_528_095,
            starttime: Some(1_795_528_101),
            endtime: 1_795_564_095,
            renew_till: Some(1_796_132_895),
        },
        ap_rep: None,
    },
    // 19: checksum; a ticket with a PAC
    Made {
        ap_req: "\
            6e82025b30820257a003020105a10302010ea20703050000000000a38201ba618201b6308201b2a003020105a1051b03412e\
            42a2163014a003020101a10d300b1b04696d61701b03683139a382018a30820186a003020113a103020101a2820178048201\
            74ee5d2bd77e7513ed741711145ad6c388e393da2556f719e53e9870d074e2acf108d4c9f7655c0cd9fbe5e14ca66ac898ce\
            b71566fd8c10dc00cf222f1a6ca388373185ae3c11d7688da64d79366ad979d37429a07a1bfbb56b8e93bc90b671616011e4\
            5de6176c06577aaf566c1b998ca8e2e38d552e21e26a27f47b6ef1c6f693911bfb5d8d53d475a6305361e3aca819459245f9\
            8ee9cf4670d5ad3fd729a0ef990f48d70c40bd1099aa4af95cadbcf6fd47feea0fdafd33e188163dda0b6bc63bba4982384b\
            b7e49f4b630d7a423e14427e5509c3ac9bc72565c2499d63cf7c5e82a5abfcbc90a60ff9907d58edcab071386516ea1799fe\
            0c611208bd12153224e10bb626b6abd04999ae54b8160126443e823921aaf430e1b3831a4f04d64a4d1346a6d1fa9b4581d1\
            97ffd484045a5974ba0bb71fbb072390bb68786bc401e333e40e35226fbc457b74374c03275424489177e8b85341d86e4a0e\
            24ac1a1cea4b5f555658b7240ec090983408ff627074caa48183308180a003020113a279047710e98d03b885d121af64062f\
            0679583023cb53fb4df77ae63ba6dc27ba7573ec9da322922562c2a76d565d42b30f0d4233d7376b164f2bec58a064c332dd\
            3fee390e3db4a7538006ecf9abe602bb0e8c843bb4adeee894ad6cfe31afd6b4fe8ea860ebee5534ea71cec76bf5d6dcb4d1\
            511cc16c5c57de",
        ticket_cipher: (101, 473),
        authenticator_cipher: (488, 607),
        client: (1, &[b"u"]),
        etype: Etype::Aes128CtsHmacSha256_128,
        session_key: "8ee8d08b724f678e2755c469e8c4ca6d",
        subkey: None,
        number: None,
        cksum: Some((19, "1dbade83ccc8f60f9e2f8a3631aae7e6")),
        terms: Terms {
            flags: 0x40890000,
            authtime: 1_795_528_097,
            starttime: Some(1_795_528_098),
            endtime: 1_795_564_097,
            renew_till: Some(1_796_132_897),
        },
        ap_rep: None,
    },
    // 19: mutual subkey
    Made {
        ap_req: "\
            6e82019c30820198a003020105a10302010ea20703050020000000a381fc6181f93081f6a003020105a1051b03412e42a216\
            3014a003020101a10d300b1b04696d61701b03683139a381cf3081cca003020113a103020101a281bf0481bc28b9b21a1354\
            5c9ca2e39482a1cab063675a3667b2bac83e8a62baab0b5046c406ccb9c0146e843183670fc307ec0dabe70c7d7d8d72eb9c\
            eeb02149807af187e511fff3fa80844cad8fafb92df9cd81670416d571dddc99395ef10ae1ae3a981eb422813bed92f21413\
            daeec0ce5390667e403e9dc5972ecde473931a26e70bf0430d6f86721d449b51e1923eda30487e65b5ddfa6723a58f4a15b0\
            2d474c48f3dba11ed192d6273a9bb5d45caaa12e7110d6d72cdcd5f047f6ef80a48183308180a003020113a2790477aef9c9\
            2025cb2033c323e41d6d3c329cd855a47071da17b242a3483a84bc56e43bb8e3f161cb54859d01cef2842151ee71d4cb4003\
            948a0d66ced19f998baf46b5fabb0cd5c7d576fa6eab9e4304064b5d5bab6e266114ce432abd2887a4fc3663588d0eb92273\
            d709fd107e05ea094d8e58fa5d20cf4a",
        ticket_cipher: (94, 282),
        authenticator_cipher: (297, 416),
        client: (1, &[b"u"]),
        etype: Etype::Aes128CtsHmacSha256_128,
        session_key: "9da7d3884c336af48c0f7797e313add2",
        subkey: Some((
            Etype::Aes128CtsHmacSha256_128,
            "f8a81502a3fae76217341baa6493dbe2",
        )),
        number: None,
        cksum: None,
        terms: Terms {
            flags: 0x40890000,
            authtime: 1_795_528_095,
            starttime: Some(1_795_528_101),
            endtime: 1_795_564_095,
            renew_till: Some(1_796_132_895),
        },
        ap_rep: Some(
            "\
            6f573055a003020105a10302010fa2493047a003020113a240043e5d9ebdd184c9ab428558527822cbfbf892764d6e33f60a\
            c91b1b0fdcec11fafa60ef54561f1547b276c9da45d2fc5fa3382219e51333ec3b8e28ce10ed36",
        ),
    },
    // 20: mutual number; a ticket under the older key
    Made {
        ap_req: "\
            6e8201a8308201a4a003020105a10302010ea20703050020000000a3820116618201123082010ea003020105a1051b03412e\
            42a2163014a003020101a10d300b1b04696d61701b03683230a381e73081e4a003020114a103020102a281d70481d402f2c1\
            b8b984478c995e006c986a81db5a95fb4b9c28f7ec8ee5ab4f47d647a368a959a726e59155e87b50fb0fa7f1300194dcff26\
            065c72bd3b4600dd2b0913adf8372cfb49d16a138f5dee384a88ffcbcc81c8f828f4de62bd7dc528875f18df3a92e61fb059\
            260035a05a1ed156bcf4ef6f95ff944bfae668c60a45c9deef97184faad3238a3b8d09bfeffd2e02b275f75bc05f3a68e8d3\
            17503dae0c8a0977a7c3f4def032ac0b11bb30b41621df963ad1dd3ff971c76507ea6e84c8d855694780a941bb2e6af67e97\
            d25782a94be354cdc7a4753073a003020114a26c046af6893271c42d7671b237ad83d493dc36d7de7b97ad08c6baa05aea6b\
            2c41f8adb8883599c1b89a171abb7414f1f09134c1f915385f76c880787243f52b011737fa934e19ba21dc73f889441b2ccb\
            e1f6e28d90fb15035c77b461bb6e1b46059585a7cfb3620b00d86463",
        ticket_cipher: (97, 309),
        authenticator_cipher: (322, 428),
        client: (1, &[b"u"]),
        etype: Etype::Aes256CtsHmacSha384_192,
        session_key: "734ab7ee105c5494913611d136c6271c9f6bd4c0b19e0bdcfbfb9f0754f93167",
        subkey: None,
        number: Some(983_180_550),
        cksum: None,
        terms: Terms {
            flags: 0x40890000,
            authtime: 1_795_528_093,
            starttime: Some(1_795_528_095),
            endtime: 1_795_564_093,
            renew_till: Some(1_796_132_893),
        },
        ap_rep: Some(
            "\
            6f5f305da003020105a10302010fa251304fa003020114a2480446b4cb37a816e6acf3ce28f99f1901f82d761d35e329b429\
            fcd5f20a0a7edbf0281e29c9ef69b4d6f780b205ba61a28cff844009dee97d5542d4d400fab0ad28655af8cab5fde1",
        ),
    },
    // 20: subkey
    Made {
        ap_req: "\
            6e8201d1308201cda003020105a10302010ea20703050000000000a3820116618201123082010ea003020105a1051b03412e\
            42a2163014a003020101a10d300b1b04696d61701b03683230a381e73081e4a003020114a103020103a281d70481d41e690a\
            1ae1118602132187d08906e48d9a9aec3676f307134d0b5376294180b37d1dcc760fd8516a886cfffb58b0ba3fcde91634f6\
            68fcfb1dee7c93b2145432408027bac0a4072e2f8a8705f525b719ff8d7958074cc249e5401acddaef170ccac1f0261fd7a5\
            4c86323ec700c6421ade8bc0d576f9a5b7f943e689ee0e2bee8d591492bfea6b743d6905ba35118ee41136062ead81e77f48\
            d6d986cb58b79cc3494d8c84c4241b879d41bb102f5411da3dfa1b6c7562df72f817d5683e43d3bdb8d6fcad137adf756076\
            55d77f2a6a8085a708a4819d30819aa003020114a2819204818fa3d62599f2fe8473b6b0edba7ea91052d68264a6f25fedfc\
            0ab047e50c67cecbd30146a99b8ccfa597957a18f236d53f10e1db0bdd22ba3dabd1ba086a183064910b639c6cb5e703ec3d\
            e47cab8c7a861ab9e5dd16f41e3042b5deaea97a65fa690c0c3753904c6a10e39061f2395956e15107ded935cc5f6ba14fe3\
            a10125aae48b597e2f9d790f89fbb6df404b54",
        ticket_cipher: (97, 309),
        authenticator_cipher: (326, 469),
        client: (1, &[b"u"]),
        etype: Etype::Aes256CtsHmacSha384_192,
        session_key: "f232cdbfa6470bf677fb7d56cbdb1b6109aa828af6c6d56c5aa47b02e11f5678",
        subkey: Some((
            Etype::Aes256CtsHmacSha384_192,
            "60245d0d2ee00896043fbf16b3f58d5ec3271d18b2d9aed46445178462830940",
        )),
        number: None,
        cksum: None,
        terms: Terms {
            flags: 0x40890000,
            authtime: 1_795_528_095,
            starttime: Some(1_795_528_101),
            endtime: 1_795_564_095,
            renew_till: Some(1_796_132_895),
        },
        ap_rep: None,
    },
];
