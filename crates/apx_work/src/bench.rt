//! A run as a lock keeps it.
ghost use Rattle.std.specs.Prelude.{◌≡◌, ◌++◌, ◌∷◌, []};

use crate::shop::Shop;
use apx_history::Entry;
use apx_lock::Kept;

/// A run under the lock of its workers. It stands for its journal, and the number of an entry's seat is that of its worker.
#[derive(Drop)]
pub struct Bench<S> {
    /// The run.
    pub(crate) shop: S,
}

impl<S: Shop> Kept for Bench<S> {
    type Name = ();

    type Entry = Entry;

    ghost stands = { λ bench name log. S.journal bench.shop ≡ log };

    ghost seat = { λ e. e.worker };

    ghost bound = { λ e. 0 };

    ghost grows = { λ bench e next. S.journal next.shop ≡ S.journal bench.shop ++ e ∷ [] };

    fn count(&self) -> u64 {
        self.shop.count()
    }

    ghost use Rattle.std.proofs.Common.{ap, ◌∙◌};

    ghost one_more = { λ value next name log entry stands grows. grows ∙ ap (λ l. l ++ entry ∷ []) stands };
}
