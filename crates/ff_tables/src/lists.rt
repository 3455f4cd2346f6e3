//! A list that contracts compare as a value.
ghost use Rattle.std.specs.Prelude.{◌≡◌, ◌++◌, ◌∷◌, [], IfOk, OnOk, OnErr, IfSome, None};

use crate::NoMemory;
use std::alloc::Global;
use std::marker::Model;

/// A list over a `Vec`, which contracts see as the list of its items, without its capacity.
#[derive(Drop)]
pub struct Items<T> {
    list: Vec<T>,
}

impl<T> Model for Items<T> {
    ghost use Rattle.std.specs.Prelude.{List};

    ghost Value = { List T };

    ghost view = { λ a. a.list.items };
}

impl<T> Items<T> {
    /// The list of these items. It takes no memory.
    pub fn of(list: Vec<T>) -> Items<T>
        ensures { result ≡ list.items }
    {
        Items { list }
    }

    /// The items in their order.
    pub fn as_slice(&self) -> &[T]
        ensures { result.now ≡ self.now }
    {
        self.list.as_slice()
    }
}

impl<T: Drop> Items<T> {
    /// Appends the item. After an error the list is as before.
    pub fn push(&mut self, item: T) -> Result<(), NoMemory>
        ensures pushed { OnOk result (self.new ≡ self.old ++ item ∷ []) }
        ensures kept { OnErr result (self.new ≡ self.old) }
    {
        self.list.push(item)?;
        Ok(())
    }

    /// Takes back the last item, if there is one. It takes no memory.
    pub fn pop(&mut self) -> Option<T>
        ensures some { IfSome result (λ item. self.old ≡ self.new ++ item ∷ []) }
        ensures none { result ≡ None → (self.old ≡ []) × (self.new ≡ []) }
    {
        self.list.pop()
    }
}

impl<T: Copy> Items<T> {
    /// An equal list.
    pub fn copy(&self, alloc: Global) -> Result<Items<T>, NoMemory>
        ensures { IfOk result (λ copied. copied ≡ self.now) }
    {
        Ok(Items::of(Vec::from_slice(alloc, self.as_slice())?))
    }
}
