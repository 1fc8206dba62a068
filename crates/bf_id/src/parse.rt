ghost use Rattle.bf_id.specs.Id.{BlockId, IsId};
ghost use Rattle.bf_id.specs.TextParts.{octant_digits, HasParts, IsPlain};
ghost use Rattle.std.specs.Prelude.{ℕ, ◌≡◌, ◌<◌, ◌^◌, ◌↔◌, decimal, IsTrue, MatchOption};

use crate::id::Id;

/// The root that the text spells, without leading zeros.
pub(crate) fn root_in(text: &str) -> Option<u32>
    ensures { MatchOption result
        ((root : ℕ) → root < 2 ^ 32 → decimal root ≡ text.now → ⊥)
        (λ root. decimal root ≡ text.now) }
{
    if !is_plain(text.as_bytes()) {
        return None;
    }
    text.parse().ok()
}

fn is_plain(text: &[u8]) -> bool
    ensures { IsTrue result ↔ IsPlain text.now }
{
    text.is_empty() || (text[0] != b'+' && (text[0] != b'0' || text.len() == 1))
}

/// The id whose text has these two parts round its full stop.
pub(crate) fn from_parts(root: &str, octants: &str) -> Option<Id>
    ensures { MatchOption result
        ((i : BlockId) → IsId i → HasParts i root.now octants.now → ⊥)
        (λ i. HasParts i root.now octants.now) }
{
    let digits = octants.as_bytes();
    if digits.is_empty() {
        return None;
    }
    with_octants(root_in(root)?, digits)
}

/// The id with this root and the octants that the digits spell.
fn with_octants(root: u32, digits: &[u8]) -> Option<Id>
    ensures { MatchOption result
        ((i : BlockId) → IsId i → octant_digits i.digits ≡ digits.now → ⊥)
        (λ i. (i.root ≡ root) × (octant_digits i.digits ≡ digits.now)) }
{
    let mut id = Id::root_of(root);
    for digit in digits {
        if id.level() == 4 {
            return None;
        }
        if *digit < b'0' || b'7' < *digit {
            return None;
        }
        id = id.child(u32::from(*digit - b'0'));
    }
    Some(id)
}
