//! Tests of single DER values (`krb_der`).
ghost use Rattle.std.specs.Prelude.{◌<◌};

use crate::expect::{bytes, judged, marked, same, shows, written};
use krb_der::{DerFault, Items, KTime, Reader, Writer};
use std::alloc::{AllocError, Global};
use std::process::Abort;

/// A type of values.
#[derive(Clone, Copy)]
enum Kind {
    Number,
    Bits,
}

/// A type, the bytes in digits, and the value or the error with which they are read: of bits the first 32, as a number,
/// and how many there are.
const VALUES: &[(Kind, &str, &str)] = &[
    // X.690, section 8.3: a number has its shortest form.
    (Kind::Number, "020100", "Ok(0)"),
    (Kind::Number, "020105", "Ok(5)"),
    (Kind::Number, "02017f", "Ok(127)"),
    (Kind::Number, "02020080", "Ok(128)"),
    (Kind::Number, "020180", "Ok(-128)"),
    (Kind::Number, "0202ff7f", "Ok(-129)"),
    (
        Kind::Number,
        "02087fffffffffffffff",
        "Ok(9223372036854775807)",
    ),
    (
        Kind::Number,
        "02088000000000000000",
        "Ok(-9223372036854775808)",
    ),
    (Kind::Number, "0200", "Err(BadInteger)"),
    (Kind::Number, "02020005", "Err(BadInteger)"),
    (Kind::Number, "0202ffff", "Err(BadInteger)"),
    (Kind::Number, "0209010000000000000000", "Err(BadInteger)"),
    // X.690, sections 8.6 and 11.2: unused bits are zero. The bits of a KDC option, fewer than 32, and more.
    (Kind::Bits, "03050040000010", "Ok((1073741840, 32))"),
    (Kind::Bits, "030100", "Ok((0, 0))"),
    (Kind::Bits, "03020780", "Ok((2147483648, 1))"),
    (Kind::Bits, "0303041230", "Ok((305135616, 12))"),
    (Kind::Bits, "0306010102030406", "Ok((16909060, 39))"),
    (Kind::Bits, "0300", "Err(BadBits)"),
    (Kind::Bits, "030101", "Err(BadBits)"),
    (Kind::Bits, "03020800", "Err(BadBits)"),
    (Kind::Bits, "030207c0", "Err(BadBits)"),
];

/// Asserts that the bytes are read with this value or error.
fn is_read(rt: &impl Abort, alloc: Global, kind: Kind, octets: &[u8], value: &str) {
    match kind {
        Kind::Number => shows(rt, alloc, Reader::new(octets).read_int(), value),
        Kind::Bits => shows(rt, alloc, Reader::new(octets).read_bits(), value),
    }
}

#[test]
fn numbers_and_bits_are_read_only_in_their_one_form(rt: HostRuntime) {
    for (kind, digits, value) in VALUES {
        is_read(&rt, rt.alloc(), *kind, &bytes(rt.alloc(), *digits), *value);
    }
}

#[test]
fn a_value_is_refused_by_its_first_fault(rt: HostRuntime) {
    const REFUSED: &[(&str, DerFault)] = &[
        ("", DerFault::Truncated),
        ("1c", DerFault::BadTag),
        ("1b", DerFault::Truncated),
        ("1b800000", DerFault::BadLength),
        ("1b85000000000100", DerFault::BadLength),
        ("1b8201", DerFault::Truncated),
        ("1b817f", DerFault::BadLength),
        ("1b820080", DerFault::BadLength),
        ("1b818000", DerFault::Truncated),
        ("1b0275", DerFault::Truncated),
    ];
    for (digits, fault) in REFUSED {
        same(
            &rt,
            digits,
            &fault_of(&bytes(rt.alloc(), *digits)),
            &Some(*fault),
        );
    }
}

/// Returns the error of these bytes, if the reader stays at its place.
fn fault_of(octets: &[u8]) -> Option<DerFault> {
    let mut reader = Reader::new(octets);
    let fault = reader.read_tlv(0x1b).err();
    let is_left = reader.is_empty() == octets.is_empty()
        && reader.peek_tag() == octets.first().copied();
    if is_left { fault } else { None }
}

#[test]
fn the_elements_of_a_list_are_returned_in_order(rt: HostRuntime) {
    let mut items = Items::new(&[0x1b, 1, 0x75, 4, 2, 1, 2]);
    let found = (
        items.iter().next(),
        items.next(),
        items.next(),
        items.next(),
        Reader::new(&[4, 2, 1, 2]).read_octets(),
    );
    shows(
        &rt,
        rt.alloc(),
        found,
        "(Some([27, 1, 117]), Some([27, 1, 117]), Some([4, 2, 1, 2]), None, Ok([1, 2]))",
    );
}

#[test]
fn each_type_is_written_in_its_encoding(rt: HostRuntime) {
    const WRITTEN: &str = "0202ff7f0202008003050040000010040201021b01753000";
    written(&rt, each_type(rt.alloc()), &bytes(rt.alloc(), WRITTEN));
}

fn each_type(alloc: Global) -> Result<Vec<u8>, AllocError> {
    let mut out = Writer::new(alloc);
    put_each_type(&mut out)?;
    Ok(out.finish())
}

fn put_each_type(out: &mut Writer) -> Result<(), AllocError> {
    out.put_int(-129)?;
    out.put_int(128)?;
    out.put_bits(0x4000_0010)?;
    out.put_octets(&[1, 2])?;
    out.put_tlv(0x1b, &[0x75])?;
    out.put_bytes(&[0x30, 0])
}

/// Calls of a writer with the byte 0, and its bytes afterwards.
const CALLS: &[(usize, &str)] = &[
    (0, "000202ff7f"),
    (1, "0003050040000010"),
    (2, "0004020102"),
    (3, "001b0175"),
    (4, "003000"),
    (5, "00180f31393730303130313030303030305a"),
    (6, "00a000"),
    (7, "a00100"),
];

fn call(out: &mut Writer, place: usize) -> Result<(), AllocError> {
    match place {
        0 => out.put_int(-129),
        1 => out.put_bits(0x4000_0010),
        2 => out.put_octets(&[1, 2]),
        3 => out.put_tlv(0x1b, &[0x75]),
        4 => out.put_bytes(&[0x30, 0]),
        5 => out.put_time(KTime::of(0)),
        6 => out.begin(0xa0),
        _ if out.len() == 1 => out.wrap(0, 0xa0),
        _ => Ok(()),
    }
}

/// Returns a writer with one byte and no room for another one.
fn full(alloc: Global) -> Result<Writer, AllocError> {
    let mut out = Writer::with_capacity(alloc, 1)?;
    out.put_bytes(&[0])?;
    Ok(out)
}

/// Makes the call, a second time if memory ran out. Then the writer has its one byte still.
fn is_called(rt: &impl Abort, alloc: Global, out: &mut Writer, place: usize) {
    let mut found = marked(alloc, || call(out, place));
    if found.is_err() {
        same(rt, &place, &out.len(), &1);
        found = call(out, place);
    }
    same(rt, &place, &found, &Ok(()));
}

#[test]
fn a_writer_without_memory_is_unchanged(rt: HostRuntime) {
    let alloc = rt.alloc();
    for (place, digits) in CALLS {
        let mut out = full(alloc).unwrap_or(Writer::new(alloc));
        is_called(&rt, alloc, &mut out, *place);
        same(&rt, place, &out.finish(), &bytes(alloc, *digits));
        judged(alloc);
    }
}

#[test]
fn a_length_is_written_in_the_fewest_bytes(rt: HostRuntime) {
    const HEADS: &[(usize, &str)] = &[
        (127, "047f"),
        (128, "048180"),
        (255, "0481ff"),
        (256, "04820100"),
        (65536, "0483010000"),
    ];
    for (length, digits) in HEADS {
        let head = bytes(rt.alloc(), *digits);
        same(&rt, length, &is_head(rt.alloc(), *length, &head), &Ok(true));
    }
}

/// Checks whether the OCTET STRING of this many zeros, fewer than 65,537, is this head followed by the zeros.
fn is_head(alloc: Global, length: usize, head: &[u8]) -> Result<bool, AllocError> {
    if length > 65536 {
        return Ok(false);
    }
    let octets = zeros_written(alloc, length)?;
    Ok(octets.starts_with(head) && octets.len() == head.len() + length)
}

/// Returns the OCTET STRING of this many zeros.
fn zeros_written(alloc: Global, length: usize) -> Result<Vec<u8>, AllocError>
    requires { length < 65537 }
{
    let zeros = vec![in alloc; 0u8; length]?;
    let mut out = Writer::new(alloc);
    out.put_octets(&zeros)?;
    Ok(out.finish())
}
