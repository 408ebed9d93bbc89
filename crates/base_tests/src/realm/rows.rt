//! Tests of rows, keys, limits and maps from names (`principal_rows`).
use crate::expect::{at_last, judged, same, shows};
use enctypes::{Etype, Key};
use krb_elements::KerberosString;
use krb_fields::Name;
use principal_rows::{KeyList, KeyListError, Limits, NameKey, NameMap, Row};
use std::alloc::{AllocError, Global};
use std::cmp::Ordering;

const AES_128: Etype = Etype::Aes128CtsHmacSha1_96;

const AES_256: Etype = Etype::Aes256CtsHmacSha1_96;

const AES_256_SHA2: Etype = Etype::Aes256CtsHmacSha384_192;

fn key(etype: Etype) -> Key {
    Key::from_random(etype, &[7; 32])
}

/// Returns the number of keys in a copied list of these, whether the key of type 20 is found in it, and whether none of
/// type 17 is.
fn finds_keys(alloc: Global, keys: &[Key]) -> Result<(usize, bool, bool), KeyListError> {
    let keys = KeyList::new(alloc, keys)?.copy(alloc)?;
    let is_found = key_bytes(&keys, AES_256_SHA2) == Some(key(AES_256_SHA2).bytes());
    Ok((
        keys.keys().len(),
        is_found,
        key_bytes(&keys, AES_128).is_none(),
    ))
}

fn key_bytes(keys: &KeyList, etype: Etype) -> Option<&[u8]> {
    Some(keys.find(etype)?.bytes())
}

#[test]
fn a_key_list_holds_each_type_once_and_finds_keys_by_them(rt: HostRuntime) {
    let alloc = rt.alloc();
    let (first, second, third) = (key(AES_256), key(AES_256_SHA2), key(AES_128));
    let two = [first, second];
    let found = (
        at_last(alloc, &KeyListError::Memory, || finds_keys(alloc, &two)),
        finds_keys(alloc, &[]),
        finds_keys(alloc, &[first, first]),
        finds_keys(alloc, &[third, first, second, first]),
    );
    shows(
        &rt,
        alloc,
        found,
        "(Ok((2, true, true)), Err(Empty), Err(Doubled), Err(Doubled))",
    );
    judged(alloc);
}

/// Returns the number of versions of a first row, the current one, and whether its key is found.
fn first_version(alloc: Global) -> Result<(usize, u32, bool), KeyListError> {
    let row = Row::first(alloc, KeyList::new(alloc, &[key(AES_256)])?)?;
    let current = row.versions.current();
    let is_found = current.keys.find(AES_256).is_some();
    Ok((row.versions.as_slice().len(), current.number, is_found))
}

#[test]
fn a_first_row_has_version_1(rt: HostRuntime) {
    let found = first_version(rt.alloc());
    same(&rt, &"a first row", &found, &Ok((1, 1, true)));
}

#[test]
fn limits_have_1_to_65536_places(rt: HostRuntime) {
    for (recorded, fits) in [
        (0, false),
        (1, true),
        (64, true),
        (65_536, true),
        (65_537, false),
    ] {
        let limits = Limits::new(recorded, 0, 0, 36_000, 0);
        same(&rt, &recorded, &limits.is_some(), &fits);
    }
}

/// A borrowed name.
#[derive(Clone, Copy)]
struct Borrowed<'a> {
    components: &'a [KerberosString],
}

impl<'a> NameKey for Borrowed<'a> {
    ghost components = { λ key. key.components.now };

    fn compare(&self, name: &Name) -> Ordering {
        name.components.as_slice().cmp(self.components)
    }
}

/// Returns a map of letters, each with its last value.
fn letters(alloc: Global) -> Result<NameMap<i32>, AllocError> {
    let mut map = NameMap::new(alloc);
    for (name_type, component, value) in [(1, b"u", 1), (1, b"b", 2), (1, b"h", 3), (2, b"b", 4)] {
        map.put(Name::new(alloc, name_type, &[component])?, value)?;
    }
    Ok(map)
}

fn value_at(map: &NameMap<i32>, place: usize) -> Option<i32> {
    let (_, value) = map.at(place)?;
    Some(*value)
}

/// The values of two names, and of `h` by a borrowed name; whether the value of `h` is replaced, what was there,
/// and whether that of nobody is; then the values, and the letters and the first value once the map is cleared.
type Found = (
    [Option<i32>; 3],
    (bool, i32, bool),
    [Option<i32>; 4],
    (usize, usize, Option<i32>),
);

fn found(map: &mut NameMap<i32>, b: &Name, uu: &Name, h: &Name) -> Found {
    let borrowed = Borrowed {
        components: h.components.as_slice(),
    };
    let found = [
        map.get(b).copied(),
        map.get(uu).copied(),
        map.get(&borrowed).copied(),
    ];
    let mut value = 5;
    let is_replaced = map.replace(&borrowed, &mut value);
    let replaced = (
        is_replaced,
        value,
        map.replace(&Borrowed { components: &[] }, &mut value),
    );
    let values = [
        value_at(map, 0),
        value_at(map, 1),
        value_at(map, 2),
        value_at(map, 3),
    ];
    let len = map.len();
    map.clear();
    (found, replaced, values, (len, map.len(), value_at(map, 0)))
}

/// Returns what is found with these three names, whose types make no difference.
fn found_letters(alloc: Global, map: &mut NameMap<i32>) -> Result<Found, AllocError> {
    let b = Name::new(alloc, 0, &[b"b"])?;
    let uu = Name::new(alloc, 1, &[b"uu"])?;
    let h = Name::new(alloc, 1, &[b"h"])?;
    Ok(found(map, &b, &uu, &h))
}

#[test]
fn a_map_is_searched_and_changed_by_components(rt: HostRuntime) {
    let found = match letters(rt.alloc()) {
        Ok(mut map) => found_letters(rt.alloc(), &mut map),
        Err(fault) => Err(fault),
    };
    let wanted = (
        [Some(4), None, Some(3)],
        (true, 3, false),
        [Some(4), Some(5), Some(1), None],
        (3, 0, None),
    );
    same(&rt, &"the letters", &found, &Ok(wanted));
}
