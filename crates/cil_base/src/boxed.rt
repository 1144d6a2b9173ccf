ghost use Rattle.std.specs.Prelude.{◌≡◌, IfOk};

use crate::no_memory::NoMemory;
use std::alloc::Global;
use std::hash::{Hash, Hasher};
use std::marker::Model;

/// One value on the heap, so that a type can hold itself. Contracts see the value.
#[derive(Debug, Drop)]
pub struct Boxed<T> {
    value: Box<T>,
}

impl<T> Model for Boxed<T> {
    ghost Value = { T };

    ghost coded = { T.code };

    ghost view = { λ b. b.value.value };
}

impl<T> Boxed<T> {
    /// The value, lent.
    pub fn get(&self) -> &T
        ensures { result.now ≡ self.now }
    {
        &self.value
    }

    /// The value, moved out.
    pub fn into_inner(self) -> T
        ensures { result ≡ self }
    {
        let Boxed { value } = self;
        Box::into_inner(value)
    }
}

impl<T: Drop> Boxed<T> {
    /// Moves a value to the heap. `NoMemory` drops it.
    pub fn new(alloc: Global, value: T) -> Result<Boxed<T>, NoMemory>
        ensures { IfOk result (λ b. b ≡ value) }
    {
        let value = Box::new(alloc, value)?;
        Ok(Boxed { value })
    }
}

impl<T: PartialEq> PartialEq for Boxed<T> {
    ghost eq = { λ a b. T.eq a b };

    ghost laws = { T.laws };

    fn eq(&self, other: &Self) -> bool {
        self.get() == other.get()
    }
}

impl<T: Eq> Eq for Boxed<T> {
    ghost laws = { T.Eq.laws };
}

impl<T: Hash> Hash for Boxed<T> {
    ghost hash_input = { λ b. T.hash_input b };

    ghost respects_eq = { T.respects_eq };

    fn hash<H: Hasher>(&self, state: &mut H) {
        self.get().hash(state);
    }
}
