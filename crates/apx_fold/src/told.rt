// The fold of the kinds that tell each tuple by itself: it keeps what was told.
ghost use Rattle.std.specs.Prelude.{◌≡◌, ◌≤◌, ◌++◌, ◌∷◌, [], true, length, take, IfOk, OnOk};
ghost use Rattle.std.specs.List.{flat_map};
ghost use Rattle.apx_rules.specs.Parts.{cut_bag};
ghost use Rattle.apx_rules.specs.Rule.{words_of};
ghost use Rattle.apx_step.specs.Words.{is_blank, unless_empty, with_value as told_words};
ghost use Rattle.apx_fold.specs.Telling.{tells_each, told_of};

use crate::folding::Folding;
use crate::share::Share;
use apx_tuple::{Bag, Key, Kind, Short, State, Tuple};
use std::alloc::{AllocError, Global};

/// The fold of `keep`, `scale`, `words` and `prefix`: it keeps the tuples that were told, and sorts them at the end.
#[derive(Drop)]
pub struct Told {
    /// What the operator does.
    kind: Kind,
    /// Which keys the partition owns.
    share: Share,
    /// Where tuples lie.
    alloc: Global,
    /// What was told, in the order in which it came.
    told: Vec<Tuple>,
    /// It tells each tuple by itself.
    ghost telling: { tells_each kind ≡ true },
}

impl Told {
    ghost use Rattle.apx_fold.specs.Folds.{told_part, told_stands};

    /// The fold of no tuples.
    pub(crate) fn new(alloc: Global, kind: Kind, share: Share) -> Told
        requires { tells_each kind ≡ true }
        ensures part { told_part result ≡ record { kind = kind; n = share.n; i = share.i } }
        ensures stands { told_stands result [] [] }
    {
        Told {
            kind,
            share,
            alloc,
            told: Vec::new(alloc),
        }
    }
}

impl Folding for Told {
    ghost use Rattle.apx_fold.specs.Folds.{told_part, told_stands};

    ghost part = { told_part };

    ghost stands = { told_stands };

    fn take(&mut self, port: u8, tuples: &[Tuple]) -> Result<(), Short> {
        if port == 0 {
            tell_owned(self.alloc, &self.kind, &self.share, tuples, &mut self.told)?;
        }
        Ok(())
    }

    fn take_all(&mut self, port: u8, tuples: Vec<Tuple>) -> Result<(), Short> {
        if port == 0 {
            tell_moved(self.alloc, &self.kind, &self.share, tuples, &mut self.told)?;
        }
        Ok(())
    }

    fn end(self, _window: u32, _state: &State) -> Result<(State, Bag), Short> {
        let rows = Bag::of(self.told)?;
        Ok((State::new(self.alloc), rows))
    }

    fn end_by_value(self, _window: u32, _state: State) -> Result<(State, Bag), Short> {
        let rows = Bag::of(self.told)?;
        Ok((State::new(self.alloc), rows))
    }

    fn end_unsorted(self, _window: u32, _state: State) -> Result<(State, Vec<Tuple>), Short> {
        Ok((State::new(self.alloc), self.told))
    }
}

/// Tells the tuples that the partition owns.
fn tell_owned(
    alloc: Global,
    kind: &Kind,
    share: &Share,
    tuples: &[Tuple],
    told: &mut Vec<Tuple>,
) -> Result<(), AllocError>
    ensures { OnOk result (told.new.items ≡ told.old.items ++
        flat_map (told_of kind.now) (cut_bag share.now.n share.now.i tuples.now)) }
{
    for tuple in tuples {
        tell_if_owned(alloc, kind, share, tuple, told)?;
    }
    Ok(())
}

/// Tells a tuple, where the partition owns its key.
fn tell_if_owned(
    alloc: Global,
    kind: &Kind,
    share: &Share,
    tuple: &Tuple,
    told: &mut Vec<Tuple>,
) -> Result<(), AllocError>
    ensures { OnOk result (told.new.items ≡ told.old.items ++
        flat_map (told_of kind.now) (cut_bag share.now.n share.now.i (tuple.now ∷ []))) }
{
    if !share.owns(&tuple.key) {
        return Ok(());
    }
    tell(alloc, kind, tuple, told)
}

/// Tells the tuples that the partition owns of those that are given away.
fn tell_moved(
    alloc: Global,
    kind: &Kind,
    share: &Share,
    tuples: Vec<Tuple>,
    told: &mut Vec<Tuple>,
) -> Result<(), AllocError>
    ensures { OnOk result (told.new.items ≡ told.old.items ++
        flat_map (told_of kind.now) (cut_bag share.now.n share.now.i tuples.items)) }
{
    for tuple in tuples {
        tell_moved_if_owned(alloc, kind, share, tuple, told)?;
    }
    Ok(())
}

/// Tells a tuple that is given away, where the partition owns its key.
fn tell_moved_if_owned(
    alloc: Global,
    kind: &Kind,
    share: &Share,
    tuple: Tuple,
    told: &mut Vec<Tuple>,
) -> Result<(), AllocError>
    ensures { OnOk result (told.new.items ≡ told.old.items ++
        flat_map (told_of kind.now) (cut_bag share.now.n share.now.i (tuple ∷ []))) }
{
    if !share.owns(&tuple.key) {
        return Ok(());
    }
    tell_by_value(alloc, kind, tuple, told)
}

/// Tells a tuple that is given away: `keep` and `scale` pass it on, with no key copied.
#[tactic(auto, unfolding(crate::specs::Telling::told_of))]
fn tell_by_value(
    alloc: Global,
    kind: &Kind,
    tuple: Tuple,
    told: &mut Vec<Tuple>,
) -> Result<(), AllocError>
    ensures { OnOk result (told.new.items ≡ told.old.items ++ told_of kind.now tuple) }
{
    match *kind {
        Kind::Keep { min, max } => keep(min, max, tuple, told),
        Kind::Scale { factor } => scale(factor, tuple, told),
        _ => tell(alloc, kind, &tuple, told),
    }
}

/// Tells a tuple.
#[tactic(auto, unfolding(crate::specs::Telling::told_of))]
fn tell(alloc: Global, kind: &Kind, tuple: &Tuple, told: &mut Vec<Tuple>) -> Result<(), AllocError>
    ensures { OnOk result (told.new.items ≡ told.old.items ++ told_of kind.now tuple.now) }
{
    match *kind {
        Kind::Keep { min, max } => keep_copy(min, max, tuple, told),
        Kind::Scale { factor } => scale(factor, tuple.copy()?, told),
        Kind::Words => tell_words(alloc, &tuple.key, tuple.value, told),
        Kind::Prefix { len } => tell_front(alloc, len, tuple, told),
        _ => Ok(()),
    }
}

/// Tells the tuple, where its value is from `min` to `max`.
#[tactic(auto, unfolding(crate::specs::Telling::told_of))]
fn keep(min: i64, max: i64, tuple: Tuple, told: &mut Vec<Tuple>) -> Result<(), AllocError>
    ensures { OnOk result (told.new.items ≡ told.old.items ++ told_of (Kind.Keep min max) tuple) }
{
    if min <= tuple.value && tuple.value <= max {
        told.push(tuple)?;
    }
    Ok(())
}

/// Tells a copy of the tuple, where its value is from `min` to `max`.
#[tactic(auto, unfolding(crate::specs::Telling::told_of))]
fn keep_copy(min: i64, max: i64, tuple: &Tuple, told: &mut Vec<Tuple>) -> Result<(), AllocError>
    ensures { OnOk result (told.new.items ≡ told.old.items ++ told_of (Kind.Keep min max) tuple.now) }
{
    if min <= tuple.value && tuple.value <= max {
        told.push(tuple.copy()?)?;
    }
    Ok(())
}

/// Tells the tuple with its value multiplied by `factor`.
#[tactic(auto, unfolding(crate::specs::Telling::told_of))]
fn scale(factor: i64, tuple: Tuple, told: &mut Vec<Tuple>) -> Result<(), AllocError>
    ensures { OnOk result (told.new.items ≡ told.old.items ++ told_of (Kind.Scale factor) tuple) }
{
    let Tuple { key, value } = tuple;
    told.push(Tuple {
        key,
        value: value.wrapping_mul(factor),
    })?;
    Ok(())
}

/// Tells the tuple with its key cut to its first `len` bytes.
#[tactic(auto, unfolding(crate::specs::Telling::told_of))]
fn tell_front(
    alloc: Global,
    len: u16,
    tuple: &Tuple,
    told: &mut Vec<Tuple>,
) -> Result<(), AllocError>
    ensures { OnOk result (told.new.items ≡ told.old.items ++ told_of (Kind.Prefix len) tuple.now) }
{
    told.push(Tuple {
        key: front_of(alloc, len, &tuple.key)?,
        value: tuple.value,
    })?;
    Ok(())
}

/// The key cut to its first `len` bytes.
fn front_of(alloc: Global, len: u16, key: &Key) -> Result<Key, AllocError>
    ensures { IfOk result (λ front. front ≡ take len key.now) }
{
    let bytes = key.bytes();
    Key::of_few(alloc, &bytes[..bytes.len().min(usize::from(len))])
}

/// Tells each word of the key with the value.
fn tell_words(alloc: Global, key: &Key, value: i64, told: &mut Vec<Tuple>) -> Result<(), AllocError>
    ensures { OnOk result (told.new.items ≡ told.old.items ++ told_words value (words_of key.now)) }
{
    for word in key.bytes().split(|byte| is_blank(*byte)) {
        tell_word(alloc, word, value, told)?;
    }
    Ok(())
}

/// Whether the byte parts words.
fn is_blank(byte: u8) -> bool
    ensures { result ≡ is_blank byte }
{
    byte == b' ' || byte == b'\t'
}

/// Tells the word with the value, unless it is empty.
fn tell_word(
    alloc: Global,
    word: &[u8],
    value: i64,
    told: &mut Vec<Tuple>,
) -> Result<(), AllocError>
    requires { length word.now ≤ 1024 }
    ensures { OnOk result (told.new.items ≡ told.old.items ++ told_words value (unless_empty word.now)) }
{
    if word.is_empty() {
        return Ok(());
    }
    told.push(Tuple {
        key: Key::of_few(alloc, word)?,
        value,
    })?;
    Ok(())
}
