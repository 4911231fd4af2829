//! What the partitions of an operator carry, cut to as many partitions as a window has.
ghost use Rattle.std.specs.Prelude.{◌≡◌, ◌≢◌, ◌≤◌, IfOk};
ghost use Rattle.apx_tuple.specs.declared.progress.Progress.{Progress};
ghost use Rattle.apx_tuple.specs.Progress.{IsLargeProgress};
ghost use Rattle.apx_rules.specs.Parts.{of_parts};
ghost use Rattle.apx_shares.specs.Carried.{cut_progress};
ghost use Rattle.apx_shares.specs.Laws.{IsOrdered};
ghost use Rattle.apx_blocks.specs.Carried.{AreCuts};

use apx_split::{merge_progress, split_progress};
use apx_tuple::{Progress, Short};
use std::alloc::Global;
use std::marker::Model;

/// What each partition of an operator carries from one window to the next.
#[derive(Drop)]
pub(crate) struct Parts {
    /// That of each partition, in order.
    pub(crate) parts: Vec<Progress>,
}

impl Model for Parts {
    ghost use Rattle.std.specs.Prelude.{List};
    ghost use Rattle.apx_tuple.specs.declared.progress.Progress.{Progress};

    ghost Value = { List Progress };

    ghost view = { λ p. p.parts.items };
}

/// The cuts of what is carried to each of `n` partitions.
fn cuts_of(alloc: Global, whole: &Progress, n: u8) -> Result<Vec<Progress>, Short>
    requires low { 1 ≤ n }
    requires high { n ≤ 8 }
    ensures cuts { IfOk result (λ parts. parts.items ≡ of_parts n (λ i. cut_progress n i whole.now)) }
    ensures never { result ≢ Err Short.Large }
{
    let mut parts = Vec::new(alloc);
    for part in 0..n {
        parts.push(split_progress(alloc, whole, n, part)?)?;
    }
    Ok(parts)
}

/// The cuts of what is carried to each of `n` partitions, from its cuts to as many as there are.
///
/// `Large` comes only where all that is carried is too large.
pub(crate) fn cut_anew(alloc: Global, parts: Parts, n: u8) -> Result<Vec<Progress>, Short>
    requires low { 1 ≤ n }
    requires high { n ≤ 8 }
    requires cuts { (whole : Progress) × IsOrdered whole × AreCuts parts whole }
    ensures ok { (whole : Progress) → IsOrdered whole → AreCuts parts whole →
        IfOk result (λ cuts. cuts.items ≡ of_parts n (λ i. cut_progress n i whole)) }
    ensures large { (whole : Progress) → IsOrdered whole → AreCuts parts whole → result ≡ Err Short.Large → IsLargeProgress whole }
{
    let Parts { parts } = parts;
    if parts.len() == usize::from(n) {
        return Ok(parts);
    }
    let whole = merge_progress(alloc, parts)?;
    cuts_of(alloc, &whole, n)
}
