//! Tests of the pieces of messages (`krb_elements`).
ghost use Rattle.std.specs.Prelude.{◌<◌, ◌*◌, length, IfOk};

use crate::expect::{bytes, shows, written};
use krb_der::{DerFault, KTime, Reader, Writer};
use krb_elements::{
    ByteString, ByteStringRef, Decode, Encode, Fault, KerberosString, KerberosStringRef, MakeOwned,
    Microseconds, Octets, OctetsRef, Seq, SeqRef, UInt32, application_tag, expect_end, look_either,
    read, take_field, take_fixed, take_optional, take_sent, write, write_field, write_inside,
    write_optional,
};
use std::alloc::{AllocError, Global};
use std::cmp::Ordering;
use std::process::Abort;

/// A type of values.
#[derive(Clone, Copy)]
enum Kind {
    Int32,
    UInt32,
    Microseconds,
    Time,
    Numbers,
    KerberosString,
    Octets,
}

/// The tags of strings of bytes.
const GENERAL_STRING: u8 = 0x1b;

const OCTET_STRING: u8 = 0x04;

const BAD: &str = "Err(BadInteger)";

/// Numbers in digits, and which of the types i32, UInt32 and Microseconds have them. They are the bounds of RFC 4120,
/// section 5.2.4, encoded by X.690, section 8.3. A UInt32 may be sent as a signed number.
const NUMBERS: &[(&str, &str, bool, bool, bool)] = &[
    ("020480000000", "-2147483648", true, true, false),
    ("0201ff", "-1", true, true, false),
    ("020100", "0", true, true, true),
    ("02020080", "128", true, true, true),
    ("02030f423f", "999999", true, true, true),
    ("02030f4240", "1000000", true, true, false),
    ("02047fffffff", "2147483647", true, true, false),
    ("02050080000000", "2147483648", false, true, false),
    ("020500ffffffff", "4294967295", false, true, false),
    ("0205ff7fffffff", "-2147483649", false, false, false),
    ("02050100000000", "4294967296", false, false, false),
];

/// Values in digits, and what is read.
const VALUES: &[(Kind, &str, &str)] = &[
    (Kind::Int32, "02010500", "Err(Trailing)"),
    (Kind::UInt32, "02010500", "Err(Trailing)"),
    (Kind::Microseconds, "02010500", "Err(Trailing)"),
    (
        Kind::Time,
        "180f31393730303130313030303030305a",
        "Ok(KTime { seconds: 0 })",
    ),
    (
        Kind::Numbers,
        "3006020111020112",
        "Ok(Seq { items: [17, 18] })",
    ),
    (Kind::Numbers, "3006020111020212", "Err(Der(Truncated))"),
    (
        Kind::KerberosString,
        "1b03412e42",
        "Ok(KerberosString { bytes: [65, 46, 66] })",
    ),
    (Kind::Octets, "040200ff", "Ok(Octets { bytes: [0, 255] })"),
];

fn read_numbers(alloc: Global, octets: &[u8]) -> Result<Seq<i32>, Fault> {
    let found: SeqRef<'_, i32> = read(octets)?;
    found.copy(alloc).map_err(Fault::from)
}

/// Reads a string of bytes with this tag.
fn read_string<const TAG: u8>(alloc: Global, octets: &[u8]) -> Result<ByteString<TAG>, Fault> {
    let found: ByteStringRef<'_, TAG> = read(octets)?;
    found.copy(alloc).map_err(Fault::from)
}

/// Reads a value. What is written from it has less than three times its length.
fn read_short<'a, T: Decode<'a>>(octets: &'a [u8]) -> Result<T, DerFault>
    ensures { IfOk result (λ x. length (T.codec.text x) < 3 * length octets.now) }
{
    read(octets)
}

/// Reads a value, and writes it again.
fn value_again<'a, T: Decode<'a> + Encode>(
    alloc: Global,
    octets: &'a [u8],
) -> Result<Vec<u8>, Fault>
    requires { length octets.now < 1000 }
{
    let value: T = read_short(octets)?;
    write(alloc, &value).map_err(Fault::from)
}

/// Writes a list of two numbers.
#[tactic(auto, using(krb_elements::proofs::TextLengths::numbers_short))]
fn list_written(alloc: Global, list: &Seq<i32>) -> Result<Vec<u8>, AllocError> {
    if list.len() != 2 {
        return Ok(Vec::new(alloc));
    }
    write(alloc, list)
}

/// Writes a string of at most three bytes.
fn string_written<const TAG: u8>(
    alloc: Global,
    string: &ByteString<TAG>,
) -> Result<Vec<u8>, AllocError> {
    if string.as_slice().len() > 3 {
        return Ok(Vec::new(alloc));
    }
    write(alloc, string)
}

/// Reads a string, and writes it again.
fn string_again<const TAG: u8>(alloc: Global, octets: &[u8]) -> Result<Vec<u8>, Fault> {
    let string: ByteString<TAG> = read_string(alloc, octets)?;
    string_written(alloc, &string).map_err(Fault::from)
}

/// Reads a list of two numbers, and writes it again.
fn list_again(alloc: Global, octets: &[u8]) -> Result<Vec<u8>, Fault> {
    let list = read_numbers(alloc, octets)?;
    list_written(alloc, &list).map_err(Fault::from)
}

/// Reads a value of fewer than a thousand bytes, and writes it again.
fn again(alloc: Global, kind: Kind, octets: &[u8]) -> Result<Vec<u8>, Fault> {
    if octets.len() >= 1000 {
        return Ok(Vec::new(alloc));
    }
    match kind {
        Kind::Int32 => value_again::<i32>(alloc, octets),
        Kind::UInt32 => value_again::<UInt32>(alloc, octets),
        Kind::Microseconds => value_again::<Microseconds>(alloc, octets),
        Kind::Time => value_again::<KTime>(alloc, octets),
        Kind::Numbers => list_again(alloc, octets),
        Kind::KerberosString => string_again::<GENERAL_STRING>(alloc, octets),
        Kind::Octets => string_again::<OCTET_STRING>(alloc, octets),
    }
}

/// Asserts that the bytes are read with this value or error, and that a value is written again.
fn is_read(rt: &impl Abort, alloc: Global, kind: Kind, octets: &[u8], value: &str) {
    match kind {
        Kind::Int32 => shows(rt, alloc, read::<i32>(octets), value),
        Kind::UInt32 => shows(rt, alloc, read::<UInt32>(octets), value),
        Kind::Microseconds => shows(rt, alloc, read::<Microseconds>(octets), value),
        Kind::Time => shows(rt, alloc, read::<KTime>(octets), value),
        Kind::Numbers => shows(rt, alloc, read_numbers(alloc, octets), value),
        Kind::KerberosString => shows(
            rt,
            alloc,
            read_string::<GENERAL_STRING>(alloc, octets),
            value,
        ),
        Kind::Octets => shows(rt, alloc, read_string::<OCTET_STRING>(alloc, octets), value),
    }
    if value.starts_with("Ok") {
        written(rt, again(alloc, kind, octets), octets);
    }
}

/// Returns what is read of a number: the value, as `{:?}` prints it, or the error.
fn shown(alloc: Global, kind: Kind, number: &str, fits: bool) -> Result<String, AllocError> {
    match kind {
        _ if !fits => String::from_str(alloc, BAD),
        Kind::UInt32 => format!(in alloc; "Ok(UInt32 {{ value: {number} }})"),
        Kind::Microseconds => format!(in alloc; "Ok(Microseconds {{ value: {number} }})"),
        _ => format!(in alloc; "Ok({number})"),
    }
}

/// Asserts that the number is read as this type, or refused.
fn is_number(
    rt: &impl Abort,
    alloc: Global,
    kind: Kind,
    (digits, number): (&str, &str),
    fits: bool,
) {
    let value = shown(alloc, kind, number, fits).unwrap_or(String::new(alloc));
    is_read(rt, alloc, kind, &bytes(alloc, digits), value.as_str());
}

#[test]
fn numbers_are_read_and_written_within_their_bounds(rt: HostRuntime) {
    let alloc = rt.alloc();
    for (digits, number, int32, uint32, microseconds) in NUMBERS {
        let given = (*digits, *number);
        is_number(&rt, alloc, Kind::Int32, given, *int32);
        is_number(&rt, alloc, Kind::UInt32, given, *uint32);
        is_number(&rt, alloc, Kind::Microseconds, given, *microseconds);
    }
}

#[test]
fn values_are_read_and_written(rt: HostRuntime) {
    for (kind, digits, value) in VALUES {
        is_read(&rt, rt.alloc(), *kind, &bytes(rt.alloc(), *digits), *value);
    }
}

/// The field [8] with the list of 17 and 18.
const LIST: [u8; 10] = [0xa8, 8, 0x30, 6, 2, 1, 17, 2, 1, 18];

/// Returns the numbers of the field, or `None` if it is absent.
fn optional_numbers(alloc: Global, n: u8) -> Result<Option<Seq<i32>>, Fault>
    requires { n < 31 }
{
    let mut fields = Reader::new(&LIST);
    let found: Option<SeqRef<'_, i32>> = take_optional(&mut fields, n)?;
    found.copy(alloc).map_err(Fault::from)
}

/// Checks whether the list has 17 and 18, and whether a second iteration starts at the beginning.
fn is_iterated_twice(mut numbers: SeqRef<'_, i32>) -> bool {
    let mut again = numbers.iter();
    numbers.next() == Some(17)
        && again.next() == Some(17)
        && numbers.next() == Some(18)
        && numbers.next().is_none()
}

/// Lists with 7 and 8, one by one and from a list.
fn lists(alloc: Global) -> Result<(Seq<u32>, Seq<u32>), AllocError> {
    let mut numbers = Seq::new(alloc);
    numbers.push(7)?;
    numbers.push(8)?;
    Ok((numbers, Seq::from_vec(Vec::from_slice(alloc, &[7, 8])?)))
}

#[test]
fn lists_are_read_in_place_and_keep_their_items(rt: HostRuntime) {
    let alloc = rt.alloc();
    let numbers = take_field(&mut Reader::new(&LIST), 8);
    let found = (
        numbers.map(is_iterated_twice),
        optional_numbers(alloc, 8),
        optional_numbers(alloc, 9),
        lists(alloc),
        Seq::<u32>::new(alloc).is_empty(),
    );
    shows(
        &rt,
        alloc,
        found,
        "\
            (Ok(true), Ok(Some(Seq { items: [17, 18] })), Ok(None), Ok((Seq { items: [7, 8] }, Seq { items: [7, 8] \
            })), true)",
    );
}

/// Returns the order of the text to `A.B`, and whether it is the same.
fn order_to_a_b(alloc: Global, text: &[u8]) -> Result<(Ordering, bool), AllocError> {
    let string = KerberosString::new(Vec::from_slice(alloc, text)?);
    let other = KerberosString::from_slice(alloc, b"A.B")?;
    Ok((string.cmp(&other), string == other))
}

#[test]
fn strings_and_octets_are_made_and_compared(rt: HostRuntime) {
    let alloc = rt.alloc();
    let orders = (
        order_to_a_b(alloc, b"A.B."),
        order_to_a_b(alloc, b"A-C"),
        order_to_a_b(alloc, b"A.B"),
    );
    let wanted = "(Ok((Greater, false)), Ok((Less, false)), Ok((Equal, true)))";
    shows(&rt, alloc, orders, wanted);
    let made = (
        KerberosStringRef::new(b"A.B").copy(alloc),
        OctetsRef::new(&[0, 0xff]).copy(alloc).map(Octets::into_vec),
        Octets::from_slice(alloc, &[7]),
        Vec::from_slice(alloc, &[8]).map(Octets::new),
    );
    shows(
        &rt,
        alloc,
        made,
        "\
            (Ok(KerberosString { bytes: [65, 46, 66] }), Ok([0, 255]), Ok(Octets { bytes: [7] }), Ok(Octets { bytes: \
            [8] }))",
    );
}

/// The fields [0], [1] and [2] with the numbers 5, -1 and 5.
const FIELDS: &[u8] = &[0xa0, 3, 2, 1, 5, 0xa1, 3, 2, 1, 0xff, 0xa2, 3, 2, 1, 5];

#[test]
fn fields_are_read_in_order(rt: HostRuntime) {
    let mut fields = Reader::new(FIELDS);
    let found = (
        take_field::<i32>(&mut fields, 0),
        take_optional::<i32>(&mut fields, 0),
        take_optional::<i32>(&mut fields, 1),
        expect_end(&fields),
        take_fixed(&mut fields, 2, 5),
        expect_end(&fields),
        take_fixed(&mut Reader::new(FIELDS), 0, 6),
    );
    shows(
        &rt,
        rt.alloc(),
        found,
        "(Ok(5), Ok(None), Ok(Some(-1)), Err(Trailing), Ok(()), Ok(()), Err(BadInteger))",
    );
    let sent = take_sent::<i32>(&mut Reader::new(FIELDS), 0);
    shows(
        &rt,
        rt.alloc(),
        sent,
        "Ok(Sent { value: 5, octets: [2, 1, 5] })",
    );
    let either = (
        is_second(&[0x6a, 3, 2, 1, 5]),
        is_second(&[0x6c, 3, 2, 1, 5]),
    );
    shows(&rt, rt.alloc(), either, "(Ok((false, 5)), Ok((true, 5)))");
}

/// Reads a number under the tag 6c, or else 6a.
fn is_second(octets: &[u8]) -> Result<(bool, i32), DerFault> {
    look_either(&mut Reader::new(octets), (0x6a, false), (0x6c, true))
}

#[tactic(auto, using(crate::proofs::Lengths::fields_short))]
fn fields_written(alloc: Global) -> Result<Vec<u8>, AllocError> {
    let mut out = Writer::new(alloc);
    for (n, number) in [(0, Some(5i32)), (1, None), (2, Some(-1))] {
        write_optional(&mut out, n, &number)?;
    }
    for (n, number) in [(3, 0i32), (4, 128)] {
        write_field(&mut out, n, &number)?;
    }
    Ok(out.finish())
}

#[tactic(auto, using(krb_der::specs::IntLaws::int_short, krb_elements::specs::ShortTextLaws::tlv_short))]
fn written_inside(alloc: Global, n: u8, number: i32) -> Result<Vec<u8>, AllocError>
    requires { n < 31 }
{
    write_inside(alloc, application_tag(n), &number)
}

#[test]
fn fields_are_written_in_their_tags(rt: HostRuntime) {
    let alloc = rt.alloc();
    let fields = bytes(alloc, "a003020105a2030201ffa303020100a40402020080");
    written(&rt, fields_written(alloc), &fields);
    written(&rt, written_inside(alloc, 1, 5), &[0x61, 3, 2, 1, 5]);
    written(&rt, written_inside(alloc, 30, -1), &[0x7e, 3, 2, 1, 0xff]);
}

#[test]
fn errors_are_converted(rt: HostRuntime) {
    let faults = (Fault::from(DerFault::BadTag), Fault::from(AllocError));
    shows(&rt, rt.alloc(), faults, "(Der(BadTag), Memory)");
}

#[test]
fn numbers_have_a_range(rt: HostRuntime) {
    let made = (
        Microseconds::new(999999).is_some(),
        Microseconds::new(1000000).is_some(),
        UInt32::new(-2147483649).is_some(),
        UInt32::new(-2147483648).is_some(),
        UInt32::new(4294967295).is_some(),
        UInt32::new(4294967296).is_some(),
    );
    shows(
        &rt,
        rt.alloc(),
        made,
        "(true, false, false, true, true, false)",
    );
}
