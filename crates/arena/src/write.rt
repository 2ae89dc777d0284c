ghost use Rattle.std.specs.Prelude.{◌≡◌, slice_set};

/// Writes an item at a place of a lent table, unless the table ends before it.
pub fn write_at<T: Copy>(items: &mut [T], place: usize, item: T)
    ensures { items.new ≡ slice_set items.old place item }
{
    if place < items.len() {
        items[place] = item;
    }
}
