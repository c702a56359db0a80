ghost use Rattle.std.specs.Prelude.{◌≡◌, ◌+◌, ◌-◌, ◌<◌, ◌≤◌, [], ◌∷◌, length, drop};
ghost use Rattle.moves.specs.Stores.{Emptied, Grown, HasRoom, Shortened, items, room, stands};

use super::Store;

impl<'a, X> Store<'a, X> {
    pub fn new(places: &'a mut [X]) -> Store<'a, X>
        ensures { Emptied result places.old }
    {
        Store { places, used: 0 }
    }

    pub fn as_slice(&self) -> &[X]
        ensures { result.now ≡ items self.now }
    {
        &self.places[..self.used]
    }

    // The last n items.
    pub fn newest(&self, n: usize) -> &[X]
        requires { n ≤ length (items self.now) }
        ensures { result.now ≡ drop (length (items self.now) - n) (items self.now) }
    {
        let all = self.as_slice();
        &all[all.len() - n..]
    }

    // How many places there are, in use or not.
    pub fn capacity(&self) -> usize
        ensures { result ≡ room self.now }
    {
        self.places.len()
    }

    // How many items more there are places for.
    pub fn spare(&self) -> usize
        ensures { length (items self.now) + result ≡ room self.now }
    {
        self.capacity() - self.used
    }

    // Forgets the last n items.
    pub fn forget(&mut self, n: usize)
        requires { n ≤ length (items self.old) }
        ensures { Shortened self.old self.new n }
    {
        self.used -= n;
    }

    pub fn clear(&mut self)
        ensures { Emptied self.new (stands self.old) }
    {
        self.used = 0;
    }
}

impl<'a, X: Copy> Store<'a, X> {
    pub fn push(&mut self, item: X)
        requires { HasRoom self.old 1 }
        ensures { Grown self.old self.new (item ∷ []) }
    {
        self.places[self.used] = item;
        self.used += 1;
    }

    pub fn extend_from_slice(&mut self, list: &[X])
        requires { HasRoom self.old (length list.now) }
        ensures { Grown self.old self.new list.now }
    {
        // So few items are written before a call of memcpy is under way.
        if list.len() < 8 {
            for item in list {
                self.push(*item);
            }
            return;
        }
        let end = self.used + list.len();
        self.places[self.used..end].copy_from_slice(list);
        self.used = end;
    }
}
