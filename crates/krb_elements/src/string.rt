//! The order of KerberosStrings (RFC 4120, section 5.2.1).
ghost use Rattle.std.specs.Prelude.{Some, refl, nat_eq};
ghost use Rattle.std.specs.Ordering.{nat_cmp};
ghost use Rattle.std.specs.Cmp.{partial_equiv_from_equiv};
ghost use Rattle.std.specs.Cmp.Lexicographic.{slice_cmp, pointwise, nat_list_cmp_total, nat_list_eq_equiv, texts_ties};
ghost use Rattle.std.specs.Cmp.Lexicographic.{texts_po};

use crate::byte_string::KerberosString;
use std::cmp::Ordering;

impl PartialEq for KerberosString {
    ghost eq = { pointwise nat_eq };

    ghost laws = { partial_equiv_from_equiv nat_list_eq_equiv };

    fn eq(&self, other: &KerberosString) -> bool {
        self.as_slice() == other.as_slice()
    }
}

impl Eq for KerberosString {
    ghost laws = { nat_list_eq_equiv };
}

impl PartialOrd for KerberosString {
    ghost partial_cmp = { λ x y. Some (slice_cmp nat_cmp x y) };

    ghost laws = { texts_po };

    fn partial_cmp(&self, other: &KerberosString) -> Option<Ordering> {
        Some(self.cmp(other))
    }
}

impl Ord for KerberosString {
    ghost cmp = { slice_cmp nat_cmp };

    ghost total = { nat_list_cmp_total };

    ghost matches_partial_cmp = { λ x y. refl };

    ghost matches_eq = { texts_ties };

    fn cmp(&self, other: &KerberosString) -> Ordering {
        self.as_slice().cmp(other.as_slice())
    }
}
