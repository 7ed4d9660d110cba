// A list of at most 4,096 things that needs no heap.
ghost use Rattle.std.specs.Prelude.{◌≡◌, ◌≤◌, [], ◌∷◌, ◌++◌, length, take, nat_lt, not, is_ok, OnOk, OnErr, List};

use std::marker::Model;

// The first `count` places hold what was listed, in its order. A contract sees the things that are listed, `items`, and
// that there are at most 4,096, `few`, of every listing and with no call. The places are an array, since reading takes
// no memory from the heap, and so never fails for want of it; and no crate is taken in for them, since its statements
// would be trusted anew.
#[derive(Drop)]
pub struct Listing<T> {
    places: [T; 4096],
    count: usize,
    ghost few: { length (take count places) ≤ 4096 },
}

// A listing has no place left.
#[derive(Clone, Copy, PartialEq, Eq, Debug)]
pub struct Full;

impl<T> Model for Listing<T> {
    ghost use Rattle.std.specs.Prelude.{◌≡◌, ◌≤◌, length, take};
    ghost use Rattle.reader.specs.Listing.{Listed, listed_code};

    ghost Value = { Listed T };

    ghost coded = { listed_code T.code };

    ghost view = { λ l. record { items = take l.count l.places; few = l.few } };

    ghost invariant = { λ l. (length l.places ≡ 4096) × (l.count ≤ 4096) };
}

impl<T: Copy> Listing<T> {
    // An empty list; `filler` stands in the places that are not used.
    pub fn new(filler: T) -> Listing<T>
        ensures { result.items ≡ [] }
    {
        Listing {
            places: [filler; 4096],
            count: 0,
        }
    }

    // What is listed, in its order.
    pub fn as_slice(&self) -> &[T]
        ensures items { result.now ≡ self.now.items }
        ensures few { length self.now.items ≤ 4096 }
    {
        let all = &self.places[..];
        &all[0..self.count]
    }

    // How many things are listed.
    pub fn len(&self) -> usize
        ensures count { result ≡ length self.now.items }
        ensures few { length self.now.items ≤ 4096 }
    {
        self.as_slice().len()
    }

    // Whether 4,096 things are listed.
    pub fn is_full(&self) -> bool
        ensures full { result ≡ not (nat_lt (length self.now.items) 4096) }
        ensures few { length self.now.items ≤ 4096 }
    {
        self.len() >= 4096
    }

    // Lists one thing more; where 4,096 are listed it is refused, and nothing changes.
    pub fn push(&mut self, item: T) -> Result<(), Full>
        ensures room { is_ok result ≡ nat_lt (length self.old.items) 4096 }
        ensures listed { OnOk result (self.new.items ≡ self.old.items ++ item ∷ []) }
        ensures full { OnErr result (self.new ≡ self.old) }
    {
        if self.is_full() {
            return Err(Full);
        }
        self.places[self.count] = item;
        self.count += 1;
        Ok(())
    }
}
