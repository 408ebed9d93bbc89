//! Borrowed names that are searched for.
ghost use Rattle.std.specs.Prelude.{◌≡◌, ◌∷◌, option_copied};
ghost use Rattle.std.specs.FinMap as map;
ghost use Rattle.krb_fields.specs.Name.{name_cmp};

use krb_elements::{KerberosString, KerberosStringRef, SeqRef};
use krb_fields::{Name, NameRef};
use principal_rows::{NameKey, NameMap, Row};
use std::cmp::Ordering;

/// Returns the row of a borrowed name.
pub fn find_row<'r>(rows: &'r NameMap<Row>, name: &NameRef<'_>) -> Option<&'r Row>
    ensures { option_copied result ≡ map.get rows.now name.now.components }
{
    let mut others = name.components.iter();
    match others.next() {
        Some(first) => rows.get(&SplitName { first, others }),
        None => rows.get(name),
    }
}

/// A borrowed name whose first component is read, so that a search does not read it again at each comparison.
#[derive(Drop)]
struct SplitName<'a> {
    first: KerberosStringRef<'a>,
    others: SeqRef<'a, KerberosStringRef<'a>>,
}

impl<'a> NameKey for SplitName<'a> {
    ghost components = { λ name. name.first ∷ name.others };

    fn compare(&self, name: &Name) -> Ordering {
        let Some((first, others)) = name.components.as_slice().split_first() else {
            return Ordering::Less;
        };
        match first.as_slice().cmp(self.first.as_slice()) {
            Ordering::Equal => compare_components(others, &self.others),
            unequal => unequal,
        }
    }
}

/// Compares components with those of a borrowed name.
fn compare_components<'a>(
    components: &[KerberosString],
    borrowed: &SeqRef<'a, KerberosStringRef<'a>>,
) -> Ordering
    ensures { result ≡ name_cmp components.now borrowed.now }
{
    let mut rest = components;
    for other in borrowed.iter() {
        let Some((first, others)) = rest.split_first() else {
            return Ordering::Less;
        };
        match first.as_slice().cmp(other.as_slice()) {
            Ordering::Equal => rest = others,
            unequal => return unequal,
        }
    }
    match rest.split_first() {
        None => Ordering::Equal,
        Some(_) => Ordering::Greater,
    }
}
