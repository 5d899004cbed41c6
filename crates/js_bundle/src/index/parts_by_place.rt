//! Lists that consist of a part for each place, one after another, and where each part ends.
ghost use Rattle.std.specs.Prelude.{◌≡◌, ◌∷◌, slice_get, unwrap_or};
ghost use Rattle.js_bundle.specs.code.PartsByPlace.{IsPart};

/// The part of the place with this number. `ends` says where the parts end.
pub(crate) fn part_of_place<'p, T>(all: &'p [T], ends: &[usize], number: usize) -> &'p [T]
    ensures { IsPart all.now (unwrap_or (slice_get (0 ∷ ends.now) number) 0)
        (unwrap_or (slice_get ends.now number) 0) result.now }
{
    match all.get(part_begin(ends, number)..part_end(ends, number)) {
        Some(part) => part,
        None => &[], // never: the parts are all of the list
    }
}

fn part_begin(ends: &[usize], number: usize) -> usize
    ensures { result ≡ unwrap_or (slice_get (0 ∷ ends.now) number) 0 }
{
    match number.checked_sub(1) {
        Some(before) => part_end(ends, before),
        None => 0,
    }
}

fn part_end(ends: &[usize], number: usize) -> usize
    ensures { result ≡ unwrap_or (slice_get ends.now number) 0 }
{
    match ends.get(number) {
        Some(end) => *end,
        None => 0,
    }
}
