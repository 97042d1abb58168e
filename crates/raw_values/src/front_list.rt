ghost use Rattle.std.specs.Prelude.{◌≡◌, [], ◌∷◌, IfOk, MatchOption};

use aen_base::{List, NoMem};
use std::alloc::Global;
use std::marker::Model;

/// A list that grows at its front: it keeps its items in reverse.
pub struct FrontList<T> {
    reversed: Vec<T>,
}

impl<T: Drop> Drop for FrontList<T> {
    fn drop(self) {
        let FrontList { reversed: _ } = self;
    }
}

impl<T> Model for FrontList<T> {
    ghost use Rattle.std.specs.Prelude.{List, reverse};
    ghost use Rattle.std.specs.Coded.{coded_list};

    ghost Value = { List T };

    ghost coded = { coded_list T.code };

    ghost view = { λ it. reverse it.reversed.items };
}

impl<T> FrontList<T> {
    /// A list without items. It takes no memory.
    pub fn new(alloc: Global) -> FrontList<T>
        ensures { result ≡ [] }
    {
        FrontList {
            reversed: Vec::new(alloc),
        }
    }

    /// The same items as a plain list, with no room left for more.
    pub fn into_list(self) -> List<T>
        ensures { result ≡ self }
    {
        let FrontList {
            reversed: mut items,
        } = self;
        items.reverse();
        items.shrink_to_fit();
        List::from_vec(items)
    }
}

impl<T: Drop> FrontList<T> {
    /// Takes the item at the front off; None exactly where there is none.
    pub fn pop(&mut self) -> Option<T>
        ensures { MatchOption result ((self.old ≡ []) × (self.new ≡ [])) (λ first. self.old ≡ first ∷ self.new) }
    {
        self.reversed.pop()
    }

    /// Adds an item at the front. The only error is want of memory.
    pub fn push(self, item: T) -> Result<FrontList<T>, NoMem>
        ensures { IfOk result (λ it. it ≡ item ∷ self) }
    {
        let FrontList { mut reversed } = self;
        reversed.push(item)?;
        Ok(FrontList { reversed })
    }
}
