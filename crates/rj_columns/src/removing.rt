//! One element less.

ghost use Rattle.std.specs.Prelude.{◌≡◌};
ghost use Rattle.std.specs.List.{remove};

// Removes the element at a place, if there is one.
pub(crate) fn remove_at<T: Copy>(items: &mut Vec<T>, at: usize)
    ensures { items.new.items ≡ remove items.old.items at }
{
    if at < items.len() {
        items.remove(at);
    }
}
