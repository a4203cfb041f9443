//! A list with room for at most `N` items, all of it inside the value.
ghost use Rattle.std.specs.Prelude.{◌≡◌, ◌≤◌, length, ⊤};

use std::alloc::AllocError;

mod list;

/// There is no room for one item more.
#[derive(Clone, Copy, PartialEq, Eq, Debug)]
pub struct Full;

/// At most `N` items, the first `len` of the cells. Nothing here allocates, and it is copied where its
/// items are: that is why it is neither a `Vec` nor a vector of the crate `arrayvec`.
pub struct Bounded<T, const N: usize> {
    cells: [T; N],
    len: usize,
    ghost whole: { length cells ≡ N },
    ghost few: { len ≤ N },
}

// Written out, since `Clone` is not derived over the ghost fields of a generic struct. A list as its model could not serve:
// `Copy` asks such a model to give the fields back, and the cells that are not used are none of the list.
impl<T: Copy, const N: usize> Clone for Bounded<T, N> {
    ghost is_clone = { λ x y. y ≡ x };

    ghost is_infallible = { λ _. ⊤ };

    fn clone(&self) -> Result<Bounded<T, N>, AllocError> {
        Ok(*self)
    }
}

impl<T: Copy, const N: usize> Copy for Bounded<T, N> {}
