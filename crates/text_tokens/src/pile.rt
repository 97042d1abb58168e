ghost use Rattle.std.specs.Prelude.{◌≡◌, [], ◌∷◌, ◌++◌, length, MatchOption, OnOk, OnErr};

use aen_base::NoMem;
use std::alloc::Global;
use std::marker::Model;

/// A list that gives memory back as items are taken off its end: what is made of them one by one then
/// takes little more memory than they did. Contracts see it as the list of its items.
#[derive(Debug)]
pub struct Pile<T> {
    items: Vec<T>,
}

impl<T: Drop> Drop for Pile<T> {
    fn drop(self) {
        let Pile { items: _ } = self;
    }
}

impl<T> Model for Pile<T> {
    ghost use Rattle.std.specs.Prelude.{List};
    ghost use Rattle.std.specs.Coded.{coded_list};

    ghost Value = { List T };

    ghost coded = { coded_list T.code };

    ghost view = { λ it. it.items.items };
}

impl<T> Pile<T> {
    /// A list without items. It takes no memory.
    pub fn new(alloc: Global) -> Pile<T>
        ensures { result ≡ [] }
    {
        Pile {
            items: Vec::new(alloc),
        }
    }

    /// The items as a slice.
    pub fn as_slice(&self) -> &[T]
        ensures { result.now ≡ self.now }
    {
        self.items.as_slice()
    }

    /// The number of items.
    pub fn len(&self) -> usize
        ensures { result ≡ length self.now }
    {
        self.items.len()
    }

    /// Gives room back that isn't taken, at every 4,096th item, so that this takes little time.
    fn give_back(&mut self)
        ensures { self.new ≡ self.old }
    {
        if self.items.len() % 4_096 == 0 {
            self.items.shrink_to_fit();
        }
    }

    /// Takes the last item off; None exactly where there is none.
    pub fn pop(&mut self) -> Option<T>
        ensures { MatchOption result ((self.old ≡ []) × (self.new ≡ [])) (λ last. self.old ≡ self.new ++ last ∷ []) }
    {
        let last = self.items.pop();
        self.give_back();
        last
    }
}

impl<T: Drop> Pile<T> {
    /// Adds an item at the end. After want of memory the list is as before.
    pub fn push(&mut self, item: T) -> Result<(), NoMem>
        ensures ok { OnOk result (self.new ≡ self.old ++ item ∷ []) }
        ensures err { OnErr result (self.new ≡ self.old) }
    {
        self.items.push(item)?;
        Ok(())
    }
}
