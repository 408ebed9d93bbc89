//! Tests of KerberosTime (`krb_der`).
use crate::expect::same;
use krb_der::KTime;

// By Python's datetime, whose first year is 0001: the year 0000 has 366 days before that.
const TIMES: &[(&str, i64)] = &[
    ("00000101000000Z", -62_167_219_200),
    ("00000229120000Z", -62_162_078_400),
    ("00010101000000Z", -62_135_596_800),
    ("19000228235959Z", -2_203_891_201),
    ("19000301000000Z", -2_203_891_200),
    ("19691231235959Z", -1),
    ("19700101000000Z", 0),
    ("20000229120000Z", 951_825_600),
    ("20240101000000Z", 1_704_067_200),
    ("20240229235959Z", 1_709_251_199),
    ("20380119031408Z", 2_147_483_648),
    ("21060207062816Z", 4_294_967_296),
    ("29991231010203Z", 32_503_597_323),
    ("99991231235959Z", 253_402_300_799),
];

const REFUSED: &[&str] = &[
    "",
    "2024010100000Z",
    "202401010000000Z",
    "20240101000000",
    "202401010000000",
    "20240101000000z",
    "20240101000000+",
    "20240101000000+0000",
    "202401010000+00",
    "20240101000000.5Z",
    "202401010000.5Z",
    "2024010100000 Z",
    "-0240101000000Z",
    "20240101000:00Z",
    "20240101/00000Z",
    "20240001000000Z",
    "20241301000000Z",
    "20240100000000Z",
    "19000229000000Z",
    "20240101240000Z",
    "20240101006000Z",
    "20161231235960Z",
    "20240230000000Z",
    "20230229000000Z",
];

#[test]
fn times_are_read_and_written(rt: HostRuntime) {
    for (text, seconds) in TIMES {
        same(&rt, text, &is_spelled(*text, *seconds), &true);
    }
}

#[test]
fn other_texts_are_refused(rt: HostRuntime) {
    for text in REFUSED {
        same(&rt, text, &KTime::from_octets(text.as_bytes()), &None);
    }
}

#[test]
fn seconds_before_and_after_the_years_with_four_digits_are_no_time(rt: HostRuntime) {
    for seconds in [i64::MIN, -62_167_219_201, 253_402_300_800, i64::MAX] {
        same(&rt, &seconds, &KTime::new(seconds), &None);
    }
}

/// Checks whether the text is read as this time, and written again from it.
fn is_spelled(text: &str, seconds: i64) -> bool {
    let Some(time) = KTime::new(seconds) else {
        return false;
    };
    KTime::from_octets(text.as_bytes()) == Some(time)
        && time.to_octets().as_slice() == text.as_bytes()
        && time.seconds() == seconds
}
