//! Finding the numbers of names that rise in byte order.
ghost use Rattle.std.specs.Prelude.{◌≡◌, true, Some, IfSome};
ghost use Rattle.sh_domain.specs.Names.{are_distinct, number_of};

use sh_domain::{Names, precedes};
use sh_tree::MAX_NAMES;

/// The number of a name. It is looked for from a place of the byte order on, and the next one from
/// after it. So names that rise are found without a hash, and many names may have one hash.
pub fn number_from(names: &Names, name: &[u8], place: &mut usize) -> Option<u32>
    requires { are_distinct names.now ≡ true }
    ensures { result ≡ number_of names.now name.now }
{
    let found = place_from(names, name, *place);
    *place = found.saturating_add(1);
    match number_at(names, name, found) {
        Some(number) => Some(number),
        None => names.number(name),
    }
}

// The number at a place of the byte order, if it is that of this name.
fn number_at(names: &Names, name: &[u8], place: usize) -> Option<u32>
    requires { are_distinct names.now ≡ true }
    ensures { IfSome result (λ number. number_of names.now name.now ≡ Some number) }
{
    let number = *names.in_byte_order().get(place)?;
    if names.name(number) == name {
        Some(number)
    } else {
        None
    }
}

// The first place from one on whose name does not come before this one.
fn place_from(names: &Names, name: &[u8], from: usize) -> usize {
    let mut place = from;
    let mut step = steps_to(names, name, from) / 2;
    while step > 0 {
        if comes_before(names, name, place.saturating_add(step - 1)) {
            place = place.saturating_add(step);
        }
        step /= 2;
    }
    place
}

// More steps than to that place: a power of two, at most twice as many as there are, and one more.
fn steps_to(names: &Names, name: &[u8], from: usize) -> usize {
    let mut steps = 1;
    while steps < MAX_NAMES && comes_before(names, name, from.saturating_add(steps - 1)) {
        steps *= 2;
    }
    steps
}

// Whether the name at a place of the byte order comes before this one.
fn comes_before(names: &Names, name: &[u8], place: usize) -> bool {
    match names.in_byte_order().get(place) {
        Some(number) => precedes(names.name(*number), name),
        None => false,
    }
}
