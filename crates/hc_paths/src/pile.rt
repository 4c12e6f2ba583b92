ghost use Rattle.std.specs.Prelude.{◌≡◌, [], ◌∷◌, reverse, OnOk, OnErr, MatchOption};

use hc_fault::NoMemory;
use std::alloc::Global;
use std::marker::Model;

/// A growable list that is read from its end: contracts see the last item first.
#[derive(Drop)]
pub struct Pile<T> {
    items: Vec<T>,
}

impl<T> Model for Pile<T> {
    ghost use Rattle.std.specs.Prelude.{List, reverse};
    ghost use Rattle.std.specs.Coded.{coded_list};

    ghost Value = { List T };

    ghost coded = { coded_list T.code };

    ghost view = { λ pile. reverse pile.items.items };
}

impl<T> Pile<T> {
    pub fn new(alloc: Global) -> Pile<T>
        ensures { result ≡ [] }
    {
        Pile {
            items: Vec::new(alloc),
        }
    }

    pub fn pop(&mut self) -> Option<T>
        ensures { MatchOption result ((self.old ≡ []) × (self.new ≡ [])) (λ top. self.old ≡ top ∷ self.new) }
    {
        self.items.pop()
    }

    pub fn into_vec(self) -> Vec<T>
        ensures { reverse result.items ≡ self }
    {
        let Pile { items } = self;
        items
    }
}

impl<T: Drop> Pile<T> {
    /// Puts an item on top. Where it is refused nothing has changed.
    pub fn push(&mut self, item: T) -> Result<(), NoMemory>
        ensures ok { OnOk result (self.new ≡ item ∷ self.old) }
        ensures same { OnErr result (self.new ≡ self.old) }
    {
        self.items.push(item)?;
        Ok(())
    }
}
