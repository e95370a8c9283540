//! The first items of a slice.
ghost use Rattle.std.specs.Prelude.{◌≡◌, take};

/// Returns the first items, at most `number`.
pub fn first<T>(items: &[T], number: usize) -> &[T]
    ensures { result.now ≡ take number items.now }
{
    if number < items.len() {
        &items[..number]
    } else {
        items
    }
}
