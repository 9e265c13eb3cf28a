//! Values in order: what the lists of steps, streams, payments, exchanges and resets are.
ghost use Rattle.std.specs.Prelude.{◌≡◌, List, [], ◌∷◌, ◌++◌, length, IfOk, OnOk, OnErr};

use irs_base::Memory;
use std::alloc::Global;
use std::marker::Model;

/// Values in order.
#[derive(Drop)]
pub struct Listed<T> {
    items: Vec<T>,
}

impl<T> Model for Listed<T> {
    ghost Value = { List T };

    ghost view = { λ l. l.items.items };
}

impl<T: Drop> Listed<T> {
    /// The empty list; it takes no memory.
    pub fn new(alloc: Global) -> Listed<T>
        ensures { result ≡ [] }
    {
        Listed {
            items: Vec::new(alloc),
        }
    }

    /// The empty list with room for `count` values; an error is that memory ran out.
    pub fn with_room(alloc: Global, count: usize) -> Result<Listed<T>, Memory>
        ensures { IfOk result (λ l. l ≡ []) }
    {
        Ok(Listed {
            items: Vec::with_capacity(alloc, count)?,
        })
    }

    /// Appends an item; where memory runs out the list stays as it was and the item is dropped.
    pub fn push(&mut self, x: T) -> Result<(), Memory>
        ensures ok { OnOk result (self.new ≡ self.old ++ x ∷ []) }
        ensures err { OnErr result (self.new ≡ self.old) }
    {
        self.items.push(x)?;
        Ok(())
    }

    /// How many there are.
    pub fn len(&self) -> usize
        ensures { result ≡ length self.now }
    {
        self.items.len()
    }

    /// All of them in order.
    pub fn as_slice(&self) -> &[T]
        ensures { result.now ≡ self.now }
    {
        &self.items
    }
}

impl<T: Copy + Drop> Listed<T> {
    /// An equal list, or out of memory.
    pub fn copy(&self, alloc: Global) -> Result<Listed<T>, Memory>
        ensures { IfOk result (λ l. l ≡ self.now) }
    {
        Ok(Listed {
            items: Vec::from_slice(alloc, &self.items)?,
        })
    }
}
