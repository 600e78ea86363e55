// Masks that hold an order: mask x is the set of the names lower than name x.
ghost use Rattle.std.specs.Prelude.{Bool, ◌≡◌, ℕ, ◌*◌, ◌<◌, ◌≤◌, length, get_or};
ghost use Rattle.roles.specs.Role.{Chain};
ghost use Rattle.order.specs.Closure.{reaches, with_inner};
ghost use Rattle.name_sets.specs.Mask.{Holds};
ghost use Rattle.name_sets.specs.Mask.{has as has_of};
ghost use Rattle.order_masks.specs.AbsorbLaws.{grown as grown_of};

use name_sets::{has, single};
use role_bytes::name;

// The names of some roles, and all names lower than these.
pub(crate) fn reached(roles: &[u8], masks: &[u64]) -> u64
    requires by_index { (k : ℕ) → k < length roles.now → get_or roles.now k 0 < 2 * length masks.now }
    requires masks_len_bound { length masks.now ≤ 64 }
    ensures { (lower : ℕ → ℕ → Bool) → Holds masks.now lower → (y : ℕ) → y < 64
        → has_of result y ≡ reaches lower roles.now y }
{
    let mut lower = 0;
    for role in roles {
        let inner = name(*role) as usize;
        lower |= single(inner) | masks[inner];
    }
    lower
}

// Puts a set of names below a name and below all names above it.
pub(crate) fn absorb(masks: &mut [u64], right: usize, lower: u64)
    requires right_in_bounds { right < length masks.old }
    requires masks_len_bound { length masks.old ≤ 64 }
    ensures { (order : ℕ → ℕ → Bool) (inner : Chain) → Holds masks.old order
        → ((y : ℕ) → y < 64 → has_of lower y ≡ reaches order inner y) → Holds masks.new (with_inner order right inner) }
{
    masks[right] |= lower;
    for mask in masks.iter_mut() {
        *mask = grown(*mask, right, lower);
    }
}

// A mask, with the set where it has the right name. It is written in any case: names above are not told by a jump, which is often missed, and masks can be taken
// several at a time.
fn grown(mask: u64, right: usize, lower: u64) -> u64
    ensures { result ≡ grown_of right lower mask }
{
    if has(mask, right) { mask | lower } else { mask }
}
