//! Compares received bytes with computed ones.
ghost use Rattle.std.specs.Prelude.{◌≡◌, ◌↔◌, IsTrue};

/// Checks whether both are equal. If their lengths are equal, it always compares all bytes, so that the time doesn't
/// reveal where they differ.
pub fn are_same(octets: &[u8], others: &[u8]) -> bool
    ensures { IsTrue result ↔ (octets.now ≡ others.now) }
{
    if octets.len() != others.len() {
        return false;
    }
    let mut difference = 0;
    for i in 0..octets.len() {
        difference |= octets[i] ^ others[i];
    }
    difference == 0
}
