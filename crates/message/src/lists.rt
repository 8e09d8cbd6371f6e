// Lists by their items.
ghost use Rattle.std.specs.Prelude.{◌≡◌, ◌↔◌, List, [], length, IsTrue};
ghost use Rattle.message.specs.Listed.{Lays, TellsItems, listed};
ghost use Rattle.std.specs.List.{slice_get};

use little::Little;
use std::marker::PhantomData;

/// A list whose items are asked for by their numbers.
pub trait ItemList {
    type Item: Copy;

    ghost items: { Self → List Self.Item };

    fn get(&self, k: usize) -> Option<Self::Item>
        ensures { result ≡ slice_get (items self.now) k };

    // Puts items at the front of a table, as many as there are and it has room for, and answers how many.
    fn copy_to(&self, table: &mut [Self::Item]) -> usize
        ensures { Lays (items self.now) table.old result table.new }
    {
        lay(table, |k| self.get(k))
    }
}

// Puts what is answered for 0, 1 and on at the front of a table, as long as there is something and it has room, and
// answers how many.
pub(crate) fn lay<T: Copy, F: Fn(usize) -> Option<T>>(table: &mut [T], item: F) -> usize
    requires { F.IsAlwaysCallable item }
    ensures { (items : List T) → TellsItems (F.post item) items → Lays items table.old result table.new }
{
    // by number, which asks for the item too: behind `iter_mut().enumerate()` no proof knows anything of the table
    for n in 0..table.len() {
        match item(n) {
            Some(item) => table[n] = item,
            None => return n,
        }
    }
    table.len()
}

/// A list of items that stand one after the other, as the bytes that it fills.
#[derive(Clone, Copy, Debug, Default, PartialEq, Eq)]
pub struct Items<'a, T> {
    pub bytes: &'a [u8],
    of: PhantomData<T>,
}

impl<'a, T> Items<'a, T> {
    pub fn new(bytes: &'a [u8]) -> Items<'a, T>
        ensures { result.bytes.now ≡ bytes.now }
    {
        Items {
            bytes,
            of: PhantomData,
        }
    }
}

impl<'a, T: Little> Items<'a, T> {
    pub fn len(&self) -> usize
        ensures { result ≡ length (listed T.WIDTH T.number self.now.bytes.now) }
    {
        self.bytes.len() / T::WIDTH
    }

    pub fn is_empty(&self) -> bool
        ensures { IsTrue result ↔ (listed T.WIDTH T.number self.now.bytes.now ≡ []) }
    {
        self.len() == 0
    }
}

impl<'a, T: Little + Copy> ItemList for Items<'a, T> {
    type Item = T;

    ghost items = { λ s. listed T.WIDTH T.number s.bytes.now };

    fn get(&self, k: usize) -> Option<T> {
        T::read_at(self.bytes, k.checked_mul(T::WIDTH)?)
    }
}
