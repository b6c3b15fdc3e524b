// At most so many values in their order, by value and with no heap. The library's list of this kind, `ArrayVec`, is no `Copy` value.
ghost use Rattle.std.specs.Prelude.{◌≡◌, ◌≤◌, length};

use std::alloc::AllocError;
use std::fmt;

#[derive(Copy)]
pub struct UpTo<T, const N: usize> {
    items: [T; N],
    count: usize,
    ghost few: { count ≤ N },
    ghost whole: { length items ≡ N },
}

// There was no room for one more.
#[derive(Clone, Copy, Debug, PartialEq, Eq)]
pub struct Full;

// Written out, since no `Clone` is derived for a generic struct with a ghost field.
impl<T: Copy, const N: usize> Clone for UpTo<T, N> {
    ghost use Rattle.std.specs.Prelude.{◌≡◌, ⊤};

    ghost is_clone = { ◌≡◌ };

    ghost is_infallible = { λ _. ⊤ };

    fn clone(&self) -> Result<Self, AllocError> {
        Ok(*self)
    }
}

impl<T: Copy + Default, const N: usize> UpTo<T, N> {
    ghost use Rattle.bundles.specs.Rows.{held};
    ghost use Rattle.std.specs.Prelude.{◌≡◌, []};

    pub fn new() -> Self
        ensures { held result ≡ [] }
    {
        UpTo {
            items: [T::default(); N],
            count: 0,
        }
    }
}

impl<T: Copy + Default, const N: usize> Default for UpTo<T, N> {
    ghost use Rattle.bundles.specs.Rows.{held};
    ghost use Rattle.std.specs.Prelude.{◌≡◌, []};

    ghost is_default = { λ u. held u ≡ [] };

    fn default() -> Self {
        UpTo::new()
    }
}

// Two lists are the same if their values are, whatever lies behind these.
impl<T: Copy + PartialEq, const N: usize> PartialEq for UpTo<T, N> {
    ghost use Rattle.bundles.specs.Rows.{held};
    ghost use Rattle.std.specs.Cmp.{on_per};
    ghost use Rattle.std.specs.Cmp.Lexicographic.{pointwise, lists_per};

    ghost eq = { λ u v. pointwise T.PartialEq.eq (held u) (held v) };

    ghost laws = { on_per (λ u. held u) (lists_per T.PartialEq.laws) };

    fn eq(&self, other: &Self) -> bool {
        self.as_slice() == other.as_slice()
    }
}

impl<T: Copy + Eq, const N: usize> Eq for UpTo<T, N> {
    ghost use Rattle.bundles.specs.Rows.{held};
    ghost use Rattle.std.specs.Cmp.{on_equiv};
    ghost use Rattle.std.specs.Cmp.Lexicographic.{lists_equiv};

    ghost laws = { on_equiv (λ u. held u) (lists_equiv T.Eq.laws) };
}

impl<T: Copy + fmt::Debug, const N: usize> fmt::Debug for UpTo<T, N> {
    fn fmt<W: fmt::Write>(&self, f: &mut fmt::Formatter<W>) -> fmt::Result {
        f.debug_list().entries(self.as_slice()).finish()
    }
}

impl<T: Copy, const N: usize> UpTo<T, N> {
    ghost use Rattle.bundles.specs.Rows.{held};
    ghost use Rattle.std.specs.Prelude.{◌≡◌, ◌<◌, ◌≤◌, ◌↔◌, [], ◌∷◌, ◌++◌, length, not, nat_lt, if◌then◌else◌, IsOk, OnOk, OnErr};

    pub fn as_slice(&self) -> &[T]
        ensures { result.now ≡ held self.now }
    {
        let all = &self.items[..];
        &all[..self.count]
    }

    pub fn is_full(&self) -> bool
        ensures full { result ≡ not (nat_lt (length (held self.now)) N) }
        ensures within { length (held self.now) ≤ N }
    {
        self.count == N
    }

    // One more at the end, where there is room.
    pub fn add(&mut self, item: T)
        requires { length (held self.old) < N }
        ensures { held self.new ≡ held self.old ++ item ∷ [] }
    {
        self.items[self.count] = item;
        self.count += 1;
    }

    // One more at the end, or false where there is no room, and nothing is changed.
    pub fn push(&mut self, item: T) -> bool
        ensures pushed { held self.new ≡ (if result then held self.old ++ item ∷ [] else held self.old) }
        ensures full { result ≡ nat_lt (length (held self.old)) N }
    {
        self.try_push(item).is_ok()
    }

    // One more at the end; or there is no room, and nothing is changed.
    pub fn try_push(&mut self, item: T) -> Result<(), Full>
        ensures room { IsOk result ↔ (length (held self.old) < N) }
        ensures pushed { OnOk result (held self.new ≡ held self.old ++ item ∷ []) }
        ensures full { OnErr result (self.new ≡ self.old) }
    {
        if self.is_full() {
            return Err(Full);
        }
        self.add(item);
        Ok(())
    }
}
