// What every fold does.
ghost use Rattle.std.specs.Prelude.{◌≡◌, ◌<◌, ◌⊎◌, List, IfOk, OnOk};
ghost use Rattle.apx_tuple.specs.declared.tuple.Tuple.{Tuple};
ghost use Rattle.apx_tuple.specs.Size.{IsLarge};
ghost use Rattle.apx_tuple.specs.Tuple.{tuple_key, bag_of};
ghost use Rattle.apx_rules.specs.Parts.{step_part};
ghost use Rattle.apx_fold.specs.Folding.{Partition, left_after, right_after, owned_state, stepped, IsTooLarge};

use apx_tuple::{Bag, Short, State, Tuple};

/// A window of a partition, whose tuples are taken piece by piece.
///
/// What a fold stands for says which tuples were taken on each port. How they were cut into pieces doesn't count, and nor
/// does their order: what is given at the end is the step over their bags.
pub trait Folding {
    /// The partition whose window it is.
    ghost part: { Self → Partition };

    /// It stands for these tuples as taken on the left and on the right.
    ghost stands: { Self → List Tuple → List Tuple → Type 0 };

    /// Takes tuples on a port: 0 is the left one, 1 the right one. After a refusal the fold may only be dropped.
    ///
    /// `Large` comes only where all tuples of a port are too large for a bag.
    fn take(&mut self, port: u8, tuples: &[Tuple]) -> Result<(), Short>
        requires { port < 2 }
        ensures part { part self.new ≡ part self.old }
        ensures taken { OnOk result ((lefts rights : List Tuple) → stands self.old lefts rights →
            stands self.new (left_after port lefts tuples.now) (right_after port rights tuples.now)) }
        ensures large { result ≡ Err Short.Large → (lefts rights : List Tuple) → stands self.old lefts rights →
            IsLarge tuple_key (bag_of (left_after port lefts tuples.now))
            ⊎ IsLarge tuple_key (bag_of (right_after port rights tuples.now)) };

    /// The same, with tuples that are given away, so that none of them need be copied.
    fn take_all(&mut self, port: u8, tuples: Vec<Tuple>) -> Result<(), Short>
        requires { port < 2 }
        ensures part { part self.new ≡ part self.old }
        ensures taken { OnOk result ((lefts rights : List Tuple) → stands self.old lefts rights →
            stands self.new (left_after port lefts tuples.items) (right_after port rights tuples.items)) }
        ensures large { result ≡ Err Short.Large → (lefts rights : List Tuple) → stands self.old lefts rights →
            IsLarge tuple_key (bag_of (left_after port lefts tuples.items))
            ⊎ IsLarge tuple_key (bag_of (right_after port rights tuples.items)) };

    /// The state and the rows at the end of the window: what the partition makes of the state and of the bags of the tuples
    /// that were taken.
    ///
    /// `Large` comes only where the tuples of a port, that state or those rows are too large.
    fn end(self, window: u32, state: &State) -> Result<(State, Bag), Short>
        ensures ok { (lefts rights : List Tuple) → stands self lefts rights → IfOk result (λ r.
            (r.0 ≡ (step_part (part self).n (part self).i (part self).kind window state.now (bag_of lefts) (bag_of rights)).state)
            × (r.1 ≡ (step_part (part self).n (part self).i (part self).kind window state.now (bag_of lefts) (bag_of rights)).rows)) }
        ensures large { result ≡ Err Short.Large → (lefts rights : List Tuple) → stands self lefts rights →
            IsTooLarge (stepped (part self) window (owned_state (part self) state.now) lefts rights) lefts rights };

    /// The same from a state that is given away, all of which is taken as the partition's: where it has only keys that the
    /// partition owns, what is given is what [`end`](Folding::end) gives.
    fn end_by_value(self, window: u32, state: State) -> Result<(State, Bag), Short>
        ensures ok { (lefts rights : List Tuple) → stands self lefts rights → IfOk result (λ r.
            (r.0 ≡ (stepped (part self) window state lefts rights).state)
            × (r.1 ≡ (stepped (part self) window state lefts rights).rows)) }
        ensures part { (lefts rights : List Tuple) → stands self lefts rights → owned_state (part self) state ≡ state → IfOk result (λ r.
            (r.0 ≡ (step_part (part self).n (part self).i (part self).kind window state (bag_of lefts) (bag_of rights)).state)
            × (r.1 ≡ (step_part (part self).n (part self).i (part self).kind window state (bag_of lefts) (bag_of rights)).rows)) }
        ensures large { result ≡ Err Short.Large → (lefts rights : List Tuple) → stands self lefts rights →
            IsTooLarge (stepped (part self) window state lefts rights) lefts rights };

    /// The same, with the rows in any order: they are those of the bag, and nothing is sorted for it.
    fn end_unsorted(self, window: u32, state: State) -> Result<(State, Vec<Tuple>), Short>
        ensures ok { (lefts rights : List Tuple) → stands self lefts rights → IfOk result (λ r.
            (r.0 ≡ (stepped (part self) window state lefts rights).state)
            × (bag_of r.1.items ≡ (stepped (part self) window state lefts rights).rows)) }
        ensures large { result ≡ Err Short.Large → (lefts rights : List Tuple) → stands self lefts rights →
            IsTooLarge (stepped (part self) window state lefts rights) lefts rights };
}
