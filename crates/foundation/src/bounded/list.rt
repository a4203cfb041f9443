//! What can be done with a bounded list, said by the items that it holds.
ghost use Rattle.std.specs.Prelude.{◌≡◌, ◌<◌, ◌↔◌, List, [], ◌∷◌, ◌++◌, length, IsOk, OnOk, OnErr, MatchOption};
ghost use Rattle.std.specs.List.{slice_get};
ghost use Rattle.foundation.specs.Bounds.{items};

use crate::bounded::{Bounded, Full};

impl<T: Copy, const N: usize> Bounded<T, N> {
    /// No items. The cells hold `fill` until they are used.
    pub fn empty(fill: T) -> Bounded<T, N>
        ensures { items result ≡ [] }
    {
        Bounded {
            cells: [fill; N],
            len: 0,
        }
    }

    /// The items of a slice, or `None` where it has more than `N`. It is no `TryFrom`, since it is
    /// handed the fill beside the slice.
    pub fn from_slice(list: &[T], fill: T) -> Option<Bounded<T, N>>
        ensures { MatchOption result (N < length list.now) (λ b. items b ≡ list.now) }
    {
        if list.len() > N {
            return None;
        }
        let mut cells = [fill; N];
        cells[..list.len()].copy_from_slice(list);
        Some(Bounded {
            cells,
            len: list.len(),
        })
    }

    /// Puts one more item at the end, where there is room for it.
    pub fn push(&mut self, item: T) -> Result<(), Full>
        ensures room { IsOk result ↔ (length (items self.old) < N) }
        ensures ok { OnOk result (items self.new ≡ items self.old ++ item ∷ []) }
        ensures err { OnErr result (items self.new ≡ items self.old) }
    {
        if self.len == N {
            return Err(Full);
        }
        self.cells[self.len] = item;
        self.len += 1;
        Ok(())
    }

    pub fn len(&self) -> usize
        ensures { result ≡ length (items self.now) }
    {
        self.len
    }

    pub fn get(&self, i: usize) -> Option<T>
        ensures { result ≡ slice_get (items self.now) i }
    {
        self.as_slice().get(i).copied()
    }

    pub fn as_slice(&self) -> &[T]
        ensures { result.now ≡ items self.now }
    {
        &self.cells[..self.len]
    }
}
