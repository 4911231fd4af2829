// The fold of the kinds that keep a number for each key: one number stands for all of a key's values.
ghost use Rattle.std.specs.Prelude.{◌≡◌, ◌++◌, ◌∷◌, [], true, List, map, IfOk, OnOk};
ghost use Rattle.apx_tuple.specs.declared.tuple.Tuple.{Tuple};
ghost use Rattle.apx_tuple.specs.Size.{IsLarge};
ghost use Rattle.apx_tuple.specs.State.{IsState};
ghost use Rattle.apx_tuple.specs.Tuple.{tuple_key};
ghost use Rattle.apx_rules.specs.Parts.{cut_bag};
ghost use Rattle.apx_step.specs.Walk.{pair_tuple};
ghost use Rattle.apx_fold.specs.Digests.{digests, digest_of_one, digest_of_two, digest_with, AreDigests};

use crate::folding::Folding;
use crate::putting::{closes, put_numbers};
use crate::share::Share;
use apx_tuple::{Bag, Kind, Short, State, Tuple};
use std::alloc::{AllocError, Global};

/// The fold of `count`, `sum`, `peak`, `first` and `tumble`: it keeps one number for each key that came.
#[derive(Drop)]
pub struct Digest {
    /// What the operator does.
    kind: Kind,
    /// Which keys the partition owns.
    share: Share,
    /// Where tuples lie.
    alloc: Global,
    /// For each key that came, the number that stands for its values.
    numbers: State,
    /// One number stands for a key's values.
    ghost digesting: { digests kind ≡ true },
}

impl Digest {
    ghost use Rattle.apx_fold.specs.Folds.{digest_part, digest_stands};

    /// The fold of no tuples.
    pub(crate) fn new(alloc: Global, kind: Kind, share: Share) -> Digest
        requires { digests kind ≡ true }
        ensures part { digest_part result ≡ record { kind = kind; n = share.n; i = share.i } }
        ensures stands { digest_stands result [] [] }
    {
        Digest {
            kind,
            share,
            alloc,
            numbers: State::new(alloc),
        }
    }
}

impl Folding for Digest {
    ghost use Rattle.apx_fold.specs.Folds.{digest_part, digest_stands};

    ghost part = { digest_part };

    ghost stands = { digest_stands };

    fn take(&mut self, port: u8, tuples: &[Tuple]) -> Result<(), Short> {
        if port == 0 {
            digest_owned(&self.kind, &self.share, tuples, &mut self.numbers)?;
        }
        Ok(())
    }

    fn take_all(&mut self, port: u8, tuples: Vec<Tuple>) -> Result<(), Short> {
        if port == 0 {
            digest_owned(&self.kind, &self.share, &tuples, &mut self.numbers)?;
        }
        Ok(())
    }

    fn end(self, window: u32, state: &State) -> Result<(State, Bag), Short> {
        let owned = self.share.cut(self.alloc, state)?;
        self.end_by_value(window, owned)
    }

    fn end_by_value(self, window: u32, state: State) -> Result<(State, Bag), Short> {
        let (kept, rows) = self.end_unsorted(window, state)?;
        Ok((kept, Bag::of(rows)?))
    }

    fn end_unsorted(self, window: u32, state: State) -> Result<(State, Vec<Tuple>), Short> {
        let (kept, rows) = put_numbers(self.alloc, &self.kind, &self.numbers, state)?;
        if closes(&self.kind, window) {
            return Ok((State::new(self.alloc), tuples_of(self.alloc, &kept)?));
        }
        Ok((kept, rows))
    }
}

/// Adds the tuples that the partition owns to the numbers.
///
/// `Large` comes only where all of them are too large for a bag.
fn digest_owned(
    kind: &Kind,
    share: &Share,
    tuples: &[Tuple],
    numbers: &mut State,
) -> Result<(), Short>
    ensures taken { OnOk result ((before : List Tuple) → AreDigests kind.now numbers.old before →
        AreDigests kind.now numbers.new (before ++ cut_bag share.now.n share.now.i tuples.now)) }
    ensures large { result ≡ Err Short.Large → (before : List Tuple) → AreDigests kind.now numbers.old before →
        IsLarge tuple_key (before ++ cut_bag share.now.n share.now.i tuples.now) }
{
    for tuple in tuples {
        digest_if_owned(kind, share, tuple, numbers)?;
    }
    Ok(())
}

/// Adds a tuple to the numbers, where the partition owns its key.
fn digest_if_owned(
    kind: &Kind,
    share: &Share,
    tuple: &Tuple,
    numbers: &mut State,
) -> Result<(), Short>
    ensures taken { OnOk result ((before : List Tuple) → AreDigests kind.now numbers.old before →
        AreDigests kind.now numbers.new (before ++ cut_bag share.now.n share.now.i (tuple.now ∷ []))) }
    ensures large { result ≡ Err Short.Large → (before : List Tuple) → AreDigests kind.now numbers.old before →
        IsLarge tuple_key (before ++ cut_bag share.now.n share.now.i (tuple.now ∷ [])) }
{
    if !share.owns(&tuple.key) {
        return Ok(());
    }
    digest_tuple(kind, tuple, numbers)
}

/// Adds a tuple to the numbers.
fn digest_tuple(kind: &Kind, tuple: &Tuple, numbers: &mut State) -> Result<(), Short>
    ensures taken { OnOk result ((before : List Tuple) → AreDigests kind.now numbers.old before →
        AreDigests kind.now numbers.new (before ++ tuple.now ∷ [])) }
    ensures large { result ≡ Err Short.Large → (before : List Tuple) → AreDigests kind.now numbers.old before →
        IsLarge tuple_key (before ++ tuple.now ∷ []) }
{
    let value = tuple.value;
    numbers.change(&tuple.key, |before| digest_with(kind, before, value))?;
    Ok(())
}

/// The number that stands for one value more.
fn digest_with(kind: &Kind, before: Option<i64>, value: i64) -> i64
    ensures { result ≡ digest_with kind.now before value }
{
    let one = digest_of_one(kind, value);
    match before {
        None => one,
        Some(number) => digest_of_two(kind, number, one),
    }
}

/// The number that stands for one value.
#[tactic(auto, unfolding(crate::specs::Digests::digest_of_one))]
fn digest_of_one(kind: &Kind, value: i64) -> i64
    ensures { result ≡ digest_of_one kind.now value }
{
    match kind {
        Kind::Count => 1,
        _ => value,
    }
}

/// The number that stands for what two numbers stand for.
#[tactic(auto, unfolding(crate::specs::Digests::digest_of_two))]
fn digest_of_two(kind: &Kind, first: i64, second: i64) -> i64
    ensures { result ≡ digest_of_two kind.now first second }
{
    match kind {
        Kind::Peak => first.max(second),
        Kind::First => first.min(second),
        _ => first.wrapping_add(second),
    }
}

/// The pairs of the state as tuples.
fn tuples_of(alloc: Global, state: &State) -> Result<Vec<Tuple>, AllocError>
    ensures tuples { IfOk result (λ tuples. tuples.items ≡ map pair_tuple state.now) }
    ensures state { IsState state.now }
{
    let mut tuples = Vec::with_capacity(alloc, state.len())?;
    for (key, value) in state.pairs() {
        tuples.push(Tuple {
            key: key.copy()?,
            value,
        })?;
    }
    Ok(tuples)
}
