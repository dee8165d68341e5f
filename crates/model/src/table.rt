// A list of at most N items in an array of its own, so that a copy allocates nothing.
ghost use Rattle.std.specs.Prelude.{◌≡◌, ◌≤◌, length, ⊤};

use std::alloc::AllocError;

mod calls;

// An array with a count, and not the kit's ArrayVec: a roster is Copy, an ArrayVec is not, and its clone may fail.
#[derive(Copy)]
pub(crate) struct Table<T: Copy, const N: usize> {
    items: [T; N],
    len: usize,
    ghost whole: { length items ≡ N },
    ghost within: { len ≤ N },
}

// By hand: the derive of Clone was tried, and is refused over the ghost fields of a generic struct.
impl<T: Copy, const N: usize> Clone for Table<T, N> {
    ghost is_clone = { λ x y. y ≡ x };

    ghost is_infallible = { λ _. ⊤ };

    fn clone(&self) -> Result<Table<T, N>, AllocError> {
        Ok(*self)
    }
}
