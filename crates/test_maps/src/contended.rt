//! A map that finds the budget contended at every second begin and at every second growth.

ghost use Rattle.std.specs.Prelude.{◌≡◌};

use sw_map::{CrackerMap, Tail};
use sw_query::{Bound, Refusal};
use sw_tape::Entry;

/// A map whose `begin` is passed on at the first, third and each further odd call, and answers `Contended` at the others, as where
/// another thread took 64 cells between look and step; and so is its `grow`, whose calls are counted apart. Where it is of growths alone each `begin` is passed on.
#[derive(Drop)]
pub struct ContendedMap<M: CrackerMap> {
    pub inner: M,
    begins_contend: bool,
    begin_is_due: bool,
    grow_is_due: bool,
}

impl<M: CrackerMap> ContendedMap<M> {
    /// Lets a map answer `Contended` at every second begin and at every second growth.
    pub fn new(inner: M) -> ContendedMap<M>
        ensures { result.inner ≡ inner }
    {
        ContendedMap {
            inner,
            begins_contend: true,
            begin_is_due: false,
            grow_is_due: false,
        }
    }

    /// Lets a map answer `Contended` at every second growth alone.
    pub fn of_growths(inner: M) -> ContendedMap<M>
        ensures { result.inner ≡ inner }
    {
        ContendedMap {
            inner,
            begins_contend: false,
            begin_is_due: false,
            grow_is_due: false,
        }
    }
}

impl<M: CrackerMap> CrackerMap for ContendedMap<M> {
    ghost use Rattle.std.specs.Prelude.{◌≡◌, ◌⊎◌};
    ghost use Rattle.sw_query.specs.declared.refusal.Refusal.TheVariants.{Contended};

    ghost held = { λ c. M.held c.inner };

    ghost tells = { λ c e. (e ≡ Contended 64 128) ⊎ M.tells c.inner e };

    ghost stalls = { λ c. M.stalls c.inner };

    fn is_blank(&self) -> bool {
        self.inner.is_blank()
    }

    fn head(&self) -> u8 {
        self.inner.head()
    }

    fn tail(&self) -> Tail {
        self.inner.tail()
    }

    fn cells(&self) -> u64 {
        self.inner.cells()
    }

    fn cursor(&self) -> usize {
        self.inner.cursor()
    }

    fn len(&self) -> usize {
        self.inner.len()
    }

    fn find(&self, bound: Bound) -> Option<usize> {
        self.inner.find(bound)
    }

    fn head_at(&self, place: usize) -> i64 {
        self.inner.head_at(place)
    }

    fn tail_at(&self, place: usize) -> i64 {
        self.inner.tail_at(place)
    }

    fn begin(&mut self, head: u8, tail: Tail, cells: u64) -> Result<(), Refusal> {
        let is_due = self.begin_is_due;
        self.begin_is_due = !is_due && self.begins_contend;
        if is_due {
            return Err(Refusal::Contended {
                seen: 64,
                found: 128,
            });
        }
        self.inner.begin(head, tail, cells)
    }

    fn grow(&mut self, cells: u64) -> Result<bool, Refusal> {
        let is_due = self.grow_is_due;
        self.grow_is_due = !is_due;
        if is_due {
            self.inner.clear();
            return Err(Refusal::Contended {
                seen: 64,
                found: 128,
            });
        }
        self.inner.grow(cells)
    }

    fn step(&mut self, entry: &Entry) -> Result<(), Refusal> {
        self.inner.step(entry)
    }

    fn clear(&mut self) {
        self.inner.clear();
    }
}
