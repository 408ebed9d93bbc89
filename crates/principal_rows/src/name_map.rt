//! Maps from names.
//!
//! Names are compared by their components only (RFC 4120 section 6.2), so names that differ only in their name-type
//! share one value.
ghost use Rattle.std.specs.Prelude.{◌≡◌, T, Bool, false, IfOk, IfErr, IsOk, OnOk, OnErr, IsTrue, option_copied};
ghost use Rattle.std.specs.Prelude.{option_map, slice_get};
ghost use Rattle.std.specs.FinMap as map;
ghost use Rattle.krb_fields.specs.Name.{Components, name_cmp};
ghost use Rattle.rule_lists.specs.Entries.{IsAt, IsGap};
ghost use Rattle.rule_lists.specs.Changed.{change_values};
ghost use Rattle.rule_lists.specs.Values.{retain_values};
ghost use Rattle.principal_rows.specs.NameMap.{name_of, pairs};

use krb_fields::{Name, NameRef};
use std::alloc::{AllocError, Global};
use std::cmp::Ordering;
use std::marker::Model;

/// A key to search a map with: an owned name, or one borrowed from a message.
pub trait NameKey {
    ghost components: { Self → Components };

    /// Compares `name` with this key in the order of the maps, which is that of `Name::order`.
    fn compare(&self, name: &Name) -> Ordering
        // Promise, as NameMap::new: a map from names ..
        ensures { result ≡ name_cmp name.now.components (components self.now) };
}

impl NameKey for Name {
    ghost components = { λ name. name.components };

    fn compare(&self, name: &Name) -> Ordering {
        name.order(self)
    }
}

impl<'a> NameKey for NameRef<'a> {
    ghost components = { λ name. name.components };

    fn compare(&self, name: &Name) -> Ordering {
        self.order(name).reverse()
    }
}

/// A test of values, for keeping some entries of a map.
pub trait ValueTest<V> {
    ghost passes: { Self → V → Bool };

    /// Checks whether the value passes.
    fn passes(&self, value: &V) -> bool
        ensures { result ≡ passes self.now value.now };
}

/// A change of values, for all entries of a map.
pub trait ValueChange<V> {
    ghost changed: { Self → V → V };

    /// Changes the value in place.
    fn change(&self, value: &mut V)
        ensures { value.new ≡ changed self.now value.old };
}

/// Work on a value that contracts don't see, such as freeing memory.
pub trait Upkeep<V> {
    /// Does the work on the value.
    fn keep_up(&self, value: &mut V)
        ensures { value.new ≡ value.old };
}

/// A name and its value.
#[derive(Drop)]
pub struct Entry<V> {
    /// The name. Only its components matter.
    pub name: Name,
    /// What the map holds for it.
    pub value: V,
}

/// A map from names to values, sorted by name, with binary search.
#[derive(Drop)]
pub struct NameMap<V> {
    entries: Vec<Entry<V>>,
}

impl<V> Model for NameMap<V> {
    ghost use Rattle.std.specs.Prelude.{T};
    ghost use Rattle.std.specs.FinMap as map;
    ghost use Rattle.krb_fields.specs.Name.{name_cmp, coded_name};
    ghost use Rattle.principal_rows.specs.NameMap.{pairs};

    ghost Value = { map.FinMap name_cmp V };

    ghost coded = { map.code coded_name V.code };

    ghost view = { λ a. map.from_sorted (pairs a.entries.items) };

    ghost invariant = { λ a. T (map.is_sorted name_cmp (pairs a.entries.items)) };
}

impl<V: Drop> NameMap<V> {
    /// Returns an empty map.
    pub fn new(alloc: Global) -> NameMap<V>
        // Promise: a map from names is a finite map by their components, owned or borrowed; its entries are in
        // ascending order of the names.
        ensures { result ≡ map.empty }
    {
        NameMap {
            entries: Vec::new(alloc),
        }
    }

    /// Returns the map of these entries, which may be in any order. For a repeated name the first value counts.
    pub fn from_entries(entries: Vec<Entry<V>>) -> Result<NameMap<V>, AllocError>
        // Promise, as NameMap::new: a map from names ..
        ensures { IfOk result (λ made. made ≡ map.from_entries (pairs entries.items)) }
    {
        let mut entries = entries;
        entries.sort_by(|a, b| a.name.order(&b.name))?;
        entries.dedup_by(|later, earlier| later.name.order(&earlier.name) == Ordering::Equal);
        Ok(NameMap { entries })
    }

    /// Returns the number of names.
    pub fn len(&self) -> usize
        // Promise, as NameMap::new: a map from names ..
        ensures { result ≡ map.len self.now }
    {
        self.entries.len()
    }

    /// Returns the names with their values, in ascending order.
    pub fn entries(&self) -> &[Entry<V>]
        // Promise, as NameMap::new: a map from names ..
        ensures { pairs result.now ≡ map.entries self.now }
    {
        self.entries.as_slice()
    }

    /// Returns the name and value at a place below `len`. The order is ascending.
    pub fn at(&self, place: usize) -> Option<(&Name, &V)>
        // Promise, as NameMap::new: a map from names ..
        ensures { option_map (λ e. (e.0.now.components, e.1.now)) result ≡ slice_get (map.entries self.now) place }
    {
        if place < self.entries.len() {
            let entry = &self.entries[place];
            Some((&entry.name, &entry.value))
        } else {
            None
        }
    }

    /// Returns the value of a name, if it has one.
    pub fn get<K: NameKey>(&self, key: &K) -> Option<&V>
        // Promise, as NameMap::new: a map from names ..
        ensures { option_copied result ≡ map.get self.now (K.components key.now) }
    {
        match place(&self.entries, key) {
            Ok(at) => Some(&self.entries[at].value),
            Err(_) => None,
        }
    }

    /// Sets the value of a name. It allocates only if the name has no value yet.
    pub fn put(&mut self, name: Name, value: V) -> Result<(), AllocError>
        // Promise (ok, err, there), as NameMap::remove: an entry of such ..
        ensures ok { OnOk result (self.new ≡ map.insert self.old name.components value) }
        ensures err { OnErr result (self.new ≡ self.old) }
        ensures there { IsTrue (map.contains_key self.old name.components) → IsOk result }
    {
        match place(&self.entries, &name) {
            Ok(at) => {
                self.entries[at].value = value;
                Ok(())
            }
            Err(at) => Ok(self.entries.insert(at, Entry { name, value })?),
        }
    }

    /// Exchanges `value` with the value of a name. Returns whether the name has one.
    pub fn replace<K: NameKey>(&mut self, key: &K, value: &mut V) -> bool
        // Promise (there, taken, given, absent), as NameMap::remove: an entry of such ..
        ensures there { result ≡ map.contains_key self.old (K.components key.now) }
        ensures taken { IsTrue result → map.get self.old (K.components key.now) ≡ Some value.new }
        ensures given { IsTrue result → self.new ≡ map.insert self.old (K.components key.now) value.old }
        ensures absent { result ≡ false → (self.new ≡ self.old) × (value.new ≡ value.old) }
    {
        match place(&self.entries, key) {
            Ok(at) => {
                std::mem::swap(&mut self.entries[at].value, value);
                true
            }
            Err(_) => false,
        }
    }

    /// Removes a name from the map and returns its value.
    pub fn remove<K: NameKey>(&mut self, key: &K) -> Option<V>
        // Promise (value, map): an entry of such a map is set, replaced and removed by its name's components.
        ensures value { result ≡ map.get self.old (K.components key.now) }
        ensures map { self.new ≡ map.remove self.old (K.components key.now) }
    {
        match place(&self.entries, key) {
            Ok(at) => Some(self.entries.remove(at).value),
            Err(_) => None,
        }
    }

    /// Keeps the names whose values pass the test and drops the others, in one pass.
    pub fn retain<P: ValueTest<V>>(&mut self, test: &P)
        // Promise, as NameMap::change_values: `change_values` changes each value ..
        ensures { self.new ≡ retain_values self.old (P.passes test.now) }
    {
        self.entries.retain(|entry| test.passes(&entry.value));
    }

    /// Changes each value in place, in one pass. It doesn't allocate.
    pub fn change_values<C: ValueChange<V>>(&mut self, change: &C)
        // Promise: `change_values` changes each value in place, and `retain` keeps the names whose values pass the
        // test.
        ensures { self.new ≡ change_values self.old (C.changed change.now) }
    {
        for entry in self.entries.iter_mut() {
            change.change(&mut entry.value);
        }
    }

    /// Does this work on the values at `count` places from `from` on. Returns the next place, if there is one.
    pub fn keep_up<U: Upkeep<V>>(&mut self, from: usize, count: usize, upkeep: &U) -> Option<usize>
        // Promise, as Pairs::free_dropped of replay: tidying allocates nothing, and ..
        ensures { self.new ≡ self.old }
    {
        let end = from.saturating_add(count).min(self.entries.len());
        for place in from..end {
            upkeep.keep_up(&mut self.entries[place].value);
        }
        if end < self.entries.len() {
            Some(end)
        } else {
            None
        }
    }

    /// Removes all names.
    pub fn clear(&mut self)
        // Promise, as NameMap::new: a map from names ..
        ensures { self.new ≡ map.empty }
    {
        self.entries.clear();
    }
}

/// Returns the index of the key among the entries, or else the index where it would go.
fn place<K: NameKey, V>(entries: &[Entry<V>], key: &K) -> Result<usize, usize>
    requires { T (map.is_sorted name_cmp (pairs entries.now)) }
    ensures found { IfOk result (IsAt name_cmp name_of (K.components key.now) entries.now) }
    ensures absent { IfErr result (IsGap name_cmp name_of (K.components key.now) entries.now) }
{
    entries.binary_search_by(|entry| key.compare(&entry.name))
}
