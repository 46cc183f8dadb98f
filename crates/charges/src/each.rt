// Lists of what each owner has: made, read, and reckoned with owner by owner.
ghost use Rattle.std.specs.Prelude.{◌≡◌, ◌<◌, [], ◌∷◌, ◌++◌, map, zip, length, pos, MatchOption};
ghost use Rattle.std.specs.Fn.{FnReturnsAt};
ghost use Rattle.std.specs.List.{slice_get, All, AllZip};
ghost use Rattle.charges.specs.Amounts.{amounts_of};
ghost use Rattle.charges.specs.Owners.{items_of, FnTakesAt};

use crate::amounts::Amounts;
use crate::owners::Owners;

impl<T: Copy> Owners<T> {
    // How many owners there are.
    pub fn count(&self) -> usize
        ensures { result ≡ length (items_of self.now) }
    {
        self.all().len()
    }

    // An owner's item.
    pub fn at(&self, owner: usize) -> Option<T>
        ensures { result ≡ slice_get (items_of self.now) owner }
    {
        self.all().get(owner).copied()
    }

    // All items, in the owners' order.
    pub fn all(&self) -> &[T]
        ensures { result.now ≡ items_of self.now }
    {
        &self.items[..self.count]
    }

    // What a rule gives of each item.
    pub fn map<U: Copy + Default, F: Fn(&T) -> U>(&self, rule: F) -> Owners<U>
        requires asked { All (λ x. FnTakesAt F.Fn rule x) (items_of self.now) }
        ensures each { AllZip (FnReturnsAt F.Fn rule) (items_of self.now) (items_of result) }
    {
        // As it is: tried as a push onto a list that grows, which is copied whole where it is made and where it is handed on.
        let mut items = [U::default(); 16];
        for (owner, item) in self.all().iter().enumerate() {
            items[owner] = rule(item);
        }
        Owners {
            items,
            count: self.count,
        }
    }

    // What a rule gives of each item beside another of the same owner, up to the end of the shorter list.
    pub fn zip_map<U: Copy, V: Copy + Default, F: Fn(&(T, U)) -> V>(
        &self,
        others: &Owners<U>,
        rule: F,
    ) -> Owners<V>
        requires asked { All (λ x. FnTakesAt F.Fn rule x) (zip (items_of self.now) (items_of others.now)) }
        ensures each { AllZip (FnReturnsAt F.Fn rule) (zip (items_of self.now) (items_of others.now)) (items_of result) }
    {
        // As it is: tried as zip and map, which make a list of the pairs too, and as a push, as in map.
        let count = self.count.min(others.count);
        let mut items = [V::default(); 16];
        for (owner, one) in self.items[..count].iter().enumerate() {
            items[owner] = rule(&(*one, others.items[owner]));
        }
        Owners { items, count }
    }

    // An amount of 0 for each owner.
    pub fn zeros(&self) -> Amounts
        ensures { amounts_of result ≡ map (λ _. pos 0) (items_of self.now) }
    {
        Owners {
            items: [0; 16],
            count: self.count,
        }
    }
}

impl<T: Copy + Default> Owners<T> {
    // The items of a list, unless there are more than sixteen.
    pub fn new(list: &[T]) -> Option<Owners<T>>
        ensures { MatchOption result (16 < length list.now) (λ o. items_of o ≡ list.now) }
    {
        if list.len() > 16 {
            return None;
        }
        let mut items = [T::default(); 16];
        items[..list.len()].copy_from_slice(list);
        Some(Owners {
            items,
            count: list.len(),
        })
    }

    // Each item beside another of the same owner.
    pub fn zip<U: Copy + Default>(&self, others: &Owners<U>) -> Owners<(T, U)>
        ensures { items_of result ≡ zip (items_of self.now) (items_of others.now) }
    {
        let mut pairs = Owners::none();
        for (one, other) in self.all().iter().zip(others.all()) {
            pairs.push((*one, *other));
        }
        pairs
    }

    // No items yet.
    fn none() -> Owners<T>
        ensures { items_of result ≡ [] }
    {
        Owners {
            items: [T::default(); 16],
            count: 0,
        }
    }

    // Puts an item last.
    fn push(&mut self, item: T)
        requires { length (items_of self.old) < 16 }
        ensures { items_of self.new ≡ items_of self.old ++ item ∷ [] }
    {
        self.items[self.count] = item;
        self.count += 1;
    }
}
