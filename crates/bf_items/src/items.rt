ghost use Rattle.std.specs.Prelude.{◌≡◌, ◌↔◌, [], length, IsTrue};

use std::alloc::Global;
use std::marker::Model;
use std::mem;

/// A list that contracts see as the list of its items, made of a `Vec` and given back without taking memory.
#[derive(Drop)]
pub struct Items<T> {
    vec: Vec<T>,
}

impl<T> Model for Items<T> {
    ghost use Rattle.std.specs.Prelude.{List};

    ghost Value = { List T };

    ghost view = { λ l. l.vec.items };
}

impl<T> Items<T> {
    /// No items.
    pub fn new(alloc: Global) -> Self
        ensures { result ≡ [] }
    {
        Items {
            vec: Vec::new(alloc),
        }
    }

    /// The list of a vector's items.
    pub fn of(vec: Vec<T>) -> Self
        ensures { result ≡ vec.items }
    {
        Items { vec }
    }

    /// The vector with these items.
    pub fn into_vec(self) -> Vec<T>
        ensures { result.items ≡ self }
    {
        let Items { vec } = self;
        vec
    }

    pub fn len(&self) -> usize
        ensures { result ≡ length self.now }
    {
        self.vec.len()
    }

    pub fn is_empty(&self) -> bool
        ensures { IsTrue result ↔ (self.now ≡ []) }
    {
        self.vec.is_empty()
    }

    /// The items in their order.
    pub fn as_slice(&self) -> &[T]
        ensures { result.now ≡ self.now }
    {
        self.vec.as_slice()
    }

    /// Moves the items out.
    pub fn moved(&mut self) -> Self
        ensures items { result ≡ self.old }
        ensures none { self.new ≡ [] }
    {
        let empty = Vec::new(*self.vec.allocator());
        Items {
            vec: mem::replace(&mut self.vec, empty),
        }
    }
}

impl<T: Drop> Items<T> {
    /// Lets the items go.
    pub fn clear(&mut self)
        ensures { self.new ≡ [] }
    {
        self.vec.clear();
    }
}

#[cfg(test)]
mod tests {
    use super::Items;
    use std::test::Fail;

    #[test]
    fn a_vector_comes_back(rt: HostRuntime) -> Result<(), Fail> {
        let items = Items::of(vec![in rt.alloc(); 3u32, 1, 2]?);
        assert_eq!(rt; items.as_slice(), [3, 1, 2].as_slice());
        assert_eq!(rt; items.len(), 3);
        assert!(rt; !items.is_empty());
        assert_eq!(rt; items.into_vec().as_slice(), [3, 1, 2].as_slice());
        Ok(())
    }

    #[test]
    fn items_are_moved_out(rt: HostRuntime) -> Result<(), Fail> {
        let mut items = Items::of(vec![in rt.alloc(); 3u32, 1, 2]?);
        let moved = items.moved();
        assert_eq!(rt; moved.as_slice(), [3, 1, 2].as_slice());
        assert!(rt; items.is_empty());
        items = moved;
        items.clear();
        assert!(rt; items.is_empty());
        Ok(())
    }
}
