ghost use Rattle.std.specs.Prelude.{◌≡◌, ◌<◌, ◌≤◌, Bool, Option, Some, None, MatchOption, [], ◌∷◌, ◌++◌, map, length, filter, slice_index_or, slice_set};
ghost use Rattle.std.specs.Fn.{FnReturnsAt};
ghost use Rattle.std.specs.List.{insert, Contains};
ghost use Rattle.model.specs.Held.{held};
ghost use Rattle.model.specs.Rewrite.{blank_task, rewritten};

use super::Table;
use crate::kinds::Task;

impl<T: Copy, const N: usize> Table<T, N> {
    pub(crate) fn as_slice(&self) -> &[T]
        ensures { result.now ≡ held self.now }
    {
        &self.items[..self.len]
    }

    pub(crate) fn push(&mut self, item: T)
        requires { length (held self.old) < N }
        ensures { held self.new ≡ held self.old ++ (item ∷ []) }
    {
        self.items[self.len] = item;
        self.len += 1;
    }

    pub(crate) fn insert(&mut self, at: usize, item: T)
        requires room { length (held self.old) < N }
        requires within { at ≤ length (held self.old) }
        ensures { held self.new ≡ insert (held self.old) at item }
    {
        self.push(item);
        let len = self.len;
        self.items.as_mut_slice()[at..len].rotate_right(1);
    }
}

impl<T: Copy + Default, const N: usize> Table<T, N> {
    // The array has to hold something; no call reads it.
    pub(crate) fn empty() -> Self
        ensures { held result ≡ [] }
    {
        Table {
            items: [T::default(); N],
            len: 0,
        }
    }

    pub(crate) fn from_slice(source: &[T]) -> Self
        requires { length source.now ≤ N }
        ensures { held result ≡ source.now }
    {
        let len = source.len();
        let mut items = [T::default(); N];
        items[..len].copy_from_slice(source);
        Table { items, len }
    }

    // Keeps the items that pass the test, in their order.
    pub(crate) fn retain<F: Fn(&T) -> bool>(&mut self, keep: F)
        requires { F.IsAlwaysCallable keep }
        ensures { (test : T → Bool) → ((x : T) (b : Bool) → FnReturnsAt F.Fn keep x b → b ≡ test x) → held self.new ≡ filter test (held self.old) }
    {
        // By index, in its place: a second table costs a fill and a copy of all its places.
        let mut kept = 0;
        for i in 0..self.len {
            let item = self.items[i];
            if keep(&item) {
                self.items[kept] = item;
                kept += 1;
            }
        }
        self.len = kept;
    }

    // Each item with its change, or nothing where one has none.
    pub(crate) fn try_map<F: Fn(T) -> Option<T>>(&self, change: F) -> Option<Self>
        requires { F.IsAlwaysCallable change }
        ensures { (f : T → Option T) → ((x : T) (r : Option T) → F.post change x r → r ≡ f x) → MatchOption result (Contains (map f (held self.now)) None) (λ t. map Some (held t) ≡ map f (held self.now)) }
    {
        // By index, over a copy: a new table costs a fill of all its places.
        let mut items = self.items;
        for i in 0..self.len {
            items[i] = change(self.items[i])?;
        }
        Some(Table {
            items,
            len: self.len,
        })
    }
}

impl<const N: usize> Table<Task, N> {
    // Rewrites the record at one place, and no other.
    pub(crate) fn alter(&mut self, at: usize, new: Task)
        requires { at < length (held self.old) }
        ensures { held self.new ≡ slice_set (held self.old) at (rewritten new (slice_index_or (held self.old) at blank_task)) }
    {
        self.items[at].rewrite(new);
    }
}
