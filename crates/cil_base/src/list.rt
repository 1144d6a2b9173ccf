ghost use Rattle.std.specs.Prelude.{◌≡◌, ◌<◌, ◌≤◌, ◌↔◌, ◌++◌, ◌∷◌, [], length, slice_get, slice_set, insert, remove, IfOk, IsTrue, MatchOption, OnErr, OnOk};
ghost use Rattle.std.specs.Cmp.Lexicographic.{pointwise, lists_per, lists_equiv};
ghost use Rattle.std.specs.Hash as fed;
ghost use Rattle.std.specs.Hash.{items_Alike};

use crate::no_memory::NoMemory;
use std::alloc::Global;
use std::hash::{Hash, Hasher};
use std::marker::Model;

/// Items in order. Contracts see the list itself, and not where it lies or how much room it has.
#[derive(Debug, Drop)]
pub struct List<T> {
    items: Vec<T>,
}

/// Bytes in order.
pub type Bytes = List<u8>;

impl<T> Model for List<T> {
    ghost use Rattle.std.specs.Prelude.{List};
    ghost use Rattle.std.specs.Coded.{coded_list};

    ghost Value = { List T };

    ghost coded = { coded_list T.code };

    ghost view = { λ l. l.items.items };
}

impl<T> List<T> {
    /// The empty list. Takes no memory yet.
    pub fn new(alloc: Global) -> List<T>
        ensures { result ≡ [] }
    {
        List {
            items: Vec::new(alloc),
        }
    }

    /// The items of a vector, which is moved in.
    pub fn from_vec(items: Vec<T>) -> List<T>
        ensures { result ≡ items.items }
    {
        List { items }
    }

    /// The vector of the items, moved out.
    pub fn into_vec(self) -> Vec<T>
        ensures { result.items ≡ self }
    {
        let List { items } = self;
        items
    }

    /// The items, lent.
    pub fn as_slice(&self) -> &[T]
        ensures { result.now ≡ self.now }
    {
        self.items.as_slice()
    }

    /// The number of items.
    pub fn len(&self) -> usize
        ensures { result ≡ length self.now }
    {
        self.items.len()
    }

    /// Whether there are no items.
    pub fn is_empty(&self) -> bool
        ensures { IsTrue result ↔ (self.now ≡ []) }
    {
        self.items.is_empty()
    }

    /// The allocator that further items come from.
    pub fn allocator(&self) -> Global {
        *self.items.allocator()
    }

    /// Takes the last item. None exactly where the list is empty.
    pub fn pop(&mut self) -> Option<T>
        ensures { MatchOption result ((self.old ≡ []) × (self.new ≡ [])) (λ last. self.old ≡ self.new ++ last ∷ []) }
    {
        self.items.pop()
    }

    /// Takes the item at place `at` out; those after it move down.
    pub fn remove(&mut self, at: usize) -> T
        requires { at < length self.old }
        ensures item { slice_get self.old at ≡ Some result }
        ensures rest { self.new ≡ remove self.old at }
    {
        self.items.remove(at)
    }

    /// Puts `item` in the place of the one at `at`, which is answered.
    pub fn set(&mut self, at: usize, item: T) -> T
        requires { at < length self.old }
        ensures old { slice_get self.old at ≡ Some result }
        ensures rest { self.new ≡ slice_set self.old at item }
    {
        std::mem::replace(&mut self.items[at], item)
    }
}

impl<T: Drop> List<T> {
    /// Adds an item at the end. `NoMemory` drops it and changes nothing.
    pub fn push(&mut self, item: T) -> Result<(), NoMemory>
        ensures ok { OnOk result (self.new ≡ self.old ++ item ∷ []) }
        ensures err { OnErr result (self.new ≡ self.old) }
    {
        self.items.push(item)?;
        Ok(())
    }

    /// Puts an item before place `at`, which is at most the length. `NoMemory` drops it and changes nothing.
    pub fn insert(&mut self, at: usize, item: T) -> Result<(), NoMemory>
        requires { at ≤ length self.old }
        ensures ok { OnOk result (self.new ≡ insert self.old at item) }
        ensures err { OnErr result (self.new ≡ self.old) }
    {
        self.items.insert(at, item)?;
        Ok(())
    }
}

impl<T: Copy> List<T> {
    /// Adds copies of `more` at the end. `NoMemory` changes nothing.
    pub fn extend(&mut self, more: &[T]) -> Result<(), NoMemory>
        ensures ok { OnOk result (self.new ≡ self.old ++ more.now) }
        ensures err { OnErr result (self.new ≡ self.old) }
    {
        self.items.extend_from_slice(more)?;
        Ok(())
    }

    /// A list of copies of `items`.
    pub fn from_slice(alloc: Global, items: &[T]) -> Result<List<T>, NoMemory>
        ensures { IfOk result (λ list. list ≡ items.now) }
    {
        let items = Vec::from_slice(alloc, items)?;
        Ok(List { items })
    }

    /// An equal list of its own.
    pub fn copy(&self) -> Result<List<T>, NoMemory>
        ensures { IfOk result (λ list. list ≡ self.now) }
    {
        List::from_slice(self.allocator(), self.as_slice())
    }
}

impl<T: PartialEq> PartialEq for List<T> {
    ghost eq = { λ a b. pointwise T.eq a b };

    ghost laws = { lists_per T.laws };

    fn eq(&self, other: &Self) -> bool {
        self.items == other.items
    }
}

impl<T: Eq> Eq for List<T> {
    ghost laws = { lists_equiv T.Eq.laws };
}

impl<T: Hash> Hash for List<T> {
    ghost hash_input = { λ l. fed.slice T.hash_input l };

    ghost respects_eq = { (items_Alike (record { fed = T.respects_eq })).fed };

    fn hash<H: Hasher>(&self, state: &mut H) {
        self.items.hash(state);
    }
}

#[cfg(test)]
mod tests {
    use super::*;
    use crate::boxed::Boxed;
    use std::test::Fail;

    /// A type that holds itself through both owners.
    #[derive(Debug, Drop, PartialEq, Eq)]
    enum Tree {
        Leaf(u8),
        Wrap(Boxed<Tree>),
        Fork(List<Tree>),
    }

    fn fork(alloc: Global, leaf: u8) -> Result<Tree, NoMemory> {
        let mut children = List::new(alloc);
        children.push(Tree::Leaf(1))?;
        children.push(Tree::Wrap(Boxed::new(alloc, Tree::Leaf(leaf))?))?;
        Ok(Tree::Fork(children))
    }

    #[test]
    fn a_list_does_what_a_vec_does(rt: HostRuntime) -> Result<(), Fail> {
        let mut list = List::from_vec([4, 5].to_vec(rt.alloc())?);
        list.push(6)?;
        list.insert(0, 3)?;
        assert_eq!(rt; list.as_slice(), [3, 4, 5, 6].as_slice());
        assert_eq!(rt; list.len(), 4);
        let old = list.set(1, 40);
        let third = list.remove(2);
        assert_eq!(rt; (old, third), (4, 5));
        list.extend(&[7, 8])?;
        assert_eq!(rt; list.pop(), Some(8));
        let copy = list.copy()?;
        assert_eq!(rt; copy, list, "a copy is equal");
        assert_eq!(rt; copy.into_vec().as_slice(), [3, 40, 6, 7].as_slice());
        let mut empty: List<u8> = List::new(rt.alloc());
        assert!(rt; empty.is_empty());
        assert_eq!(rt; empty.pop(), None);
        let slice = List::from_slice(rt.alloc(), &[1, 2])?;
        assert_ne!(rt; slice, empty);
        Ok(())
    }

    #[test]
    fn a_type_holds_itself_through_both_owners(rt: HostRuntime) -> Result<(), Fail> {
        let tree = fork(rt.alloc(), 2)?;
        assert_eq!(rt; tree, fork(rt.alloc(), 2)?);
        assert_ne!(rt; tree, fork(rt.alloc(), 3)?);
        Ok(())
    }
}
