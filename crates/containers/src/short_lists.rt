//! Short lists of whole numbers that are copied as a number is, and that contracts see as lists.

ghost use Rattle.std.specs.Prelude.{◌≡◌, ◌<◌, ◌≤◌, ◌↔◌, ℕ, List, [], ◌∷◌, ◌++◌, length, slice_index};
ghost use Rattle.std.specs.Prelude.{slice_set, take, replicate, true, IsTrue, IsSome, IfSome};
ghost use Rattle.std.specs.Str.{bytes_eq};
ghost use Rattle.std.proofs.Common.{rules, refl};
ghost use Rattle.std.specs.Cmp.{IsTotalOrder, partial_order_from_agreeing_total};
ghost use Rattle.std.specs.Cmp.Rules.{comparing};
ghost use Rattle.std.specs.Ordering.{as_partial_cmp};
ghost use Rattle.std.specs.declared.cmp.Ordering.TheVariants.{Less, Equal};
ghost use Rattle.containers.specs.ShortLists.Order.{list_order};
ghost use Rattle.containers.specs.ShortLists.OrderLaws.{equal_where_tied};

use std::cmp::Ordering;
use std::marker::Model;

/// A list of at most `N` whole numbers, kept in place.
///
/// Two lists are equal where they have the same numbers. The order is by length first, then by the
/// numbers from the front.
#[derive(Clone, Copy, Debug)]
pub struct ShortList<const N: usize> {
    len: usize,
    room: [u64; N],
}

impl<const N: usize> Model for ShortList<N> {
    ghost use Rattle.std.specs.Prelude.{ℕ, List, length, take};
    ghost use Rattle.containers.specs.ShortLists.Filled.{IsFilled, filled, length-shown, filled-shown};

    ghost Value = { List ℕ };

    ghost view = { λ a. take a.len a.room };

    ghost invariant = { λ a. IsFilled N a.len a.room };

    ghost inverse = { λ ns. record { len = length ns; room = filled N ns } };

    ghost inverse_ok = { λ a h. Prim.rw (length-shown N a.len a.room h, filled-shown N a.len a.room h) };
}

impl<const N: usize> ShortList<N> {
    /// The empty list.
    pub fn new() -> Self
        ensures { result ≡ [] }
    {
        ShortList {
            len: 0,
            room: [0; N],
        }
    }

    /// A number several times.
    pub fn repeated(n: u64, times: usize) -> Self
        requires { times ≤ N }
        ensures { result ≡ replicate times n }
    {
        let mut list = ShortList::new();
        for _ in 0..times {
            list.push(n);
        }
        list
    }

    /// The numbers of a slice, where there is room for all of them.
    pub fn from_slice(numbers: &[u64]) -> Option<Self>
        ensures same { IfSome result (λ list. list ≡ numbers.now) }
        ensures fits { IsSome result ↔ (length numbers.now ≤ N) }
    {
        if numbers.len() > N {
            return None;
        }
        let mut list = ShortList::new();
        for n in numbers {
            list.push(*n);
        }
        Some(list)
    }

    /// How many numbers the list has, `N` at most.
    pub fn len(&self) -> usize
        ensures count { result ≡ length self.now }
        ensures bounded { length self.now ≤ N }
    {
        self.len
    }

    /// Whether the list has no number.
    pub fn is_empty(&self) -> bool
        ensures { IsTrue result ↔ (length self.now ≡ 0) }
    {
        self.len == 0
    }

    /// Whether the list has `N` numbers, so that no further one has room.
    pub fn is_full(&self) -> bool
        ensures { IsTrue result ↔ (length self.now ≡ N) }
    {
        self.len == N
    }

    /// Adds a number at the end.
    pub fn push(&mut self, n: u64)
        requires { length self.old < N }
        ensures { self.new ≡ self.old ++ n ∷ [] }
    {
        self.room[self.len] = n;
        self.len += 1;
    }

    /// Adds a number at the end where there is room, so that of a longer list the front is kept.
    pub fn keep(&mut self, n: u64)
        ensures { self.new ≡ take N (self.old ++ n ∷ []) }
    {
        if self.len() < N {
            self.push(n);
        }
    }

    /// The number at a place.
    pub fn get(&self, at: usize) -> u64
        requires { at < length self.now }
        ensures { result ≡ slice_index self.now at }
    {
        self.as_slice()[at]
    }

    /// Replaces the number at a place.
    pub fn set(&mut self, at: usize, n: u64)
        requires { at < length self.old }
        ensures { self.new ≡ slice_set self.old at n }
    {
        let len = self.len;
        self.room[..len][at] = n;
    }

    /// The numbers in order.
    pub fn as_slice(&self) -> &[u64]
        ensures { result.now ≡ self.now }
    {
        &self.room[..self.len]
    }
}

impl<const N: usize> PartialEq for ShortList<N> {
    ghost eq = { bytes_eq };

    ghost laws = { Prim.search (comparing, rules) depth 9 };

    fn eq(&self, other: &ShortList<N>) -> bool {
        self.as_slice() == other.as_slice()
    }
}

impl<const N: usize> Eq for ShortList<N> {
    ghost laws = { Prim.search (comparing, rules) depth 9 };
}

impl<const N: usize> Ord for ShortList<N> {
    ghost cmp = { list_order };

    ghost total = { Prim.search (comparing, rules) depth 9 };

    ghost matches_partial_cmp = { Prim.search (comparing, rules) depth 9 };

    ghost matches_eq = { equal_where_tied };

    fn cmp(&self, other: &ShortList<N>) -> Ordering {
        self.len
            .cmp(&other.len)
            .then(self.as_slice().cmp(other.as_slice()))
    }
}

impl<const N: usize> PartialOrd for ShortList<N> {
    ghost partial_cmp = { as_partial_cmp list_order };

    ghost laws = { partial_order_from_agreeing_total list_order (Prim.search (comparing, rules) depth 9) (λ x y. refl) equal_where_tied };

    fn partial_cmp(&self, other: &ShortList<N>) -> Option<Ordering> {
        Some(self.cmp(other))
    }
}

/// The order of the lists: it is total, tells any two lists apart, puts shorter lists first, and
/// of lists of one length decides by the first number in which they differ. `==` tells the same
/// lists apart.
pub fn ordered_by_length_then_numbers()
    ensures total { IsTotalOrder list_order }
    ensures ties { (xs ys : List ℕ) → ((list_order xs ys ≡ Equal) ↔ (xs ≡ ys)) }
    ensures equal { (xs ys : List ℕ) → ((bytes_eq xs ys ≡ true) ↔ (xs ≡ ys)) }
    ensures shorter { (xs ys : List ℕ) → length xs < length ys → list_order xs ys ≡ Less }
    ensures first { (front xs ys : List ℕ) (m n : ℕ) → length xs ≡ length ys → m < n
        → list_order (front ++ m ∷ xs) (front ++ n ∷ ys) ≡ Less }
{}
