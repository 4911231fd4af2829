//! What a worker knows by its own entries. The functions do nothing: each states a law in its contract.
ghost use Rattle.apx_work.specs.Own.{OwnTells, OpenStays, ClaimEnds, FreeEndsNone};
ghost use Rattle.apx_work.specs.Claims.{ClaimIsOpen};

/// What a worker has open follows from its own entries, whatever the others added to the journal.
pub fn own_tells()
    ensures { OwnTells }
{}

/// Where its own entries say so, the partition is there and has the window open, in the epoch of its operator.
pub fn open_stays()
    ensures { OpenStays }
{}

/// A worker that claims a window which it has open can do nothing but write it, finish it, or kill its partition.
pub fn claim_ends()
    ensures { ClaimEnds }
{}

/// A worker with nothing open can write and finish nothing.
pub fn free_ends_none()
    ensures { FreeEndsNone }
{}

/// What a worker claims by its own entries, where it had one claim after the other, is what it has open by them.
pub fn claim_is_open()
    ensures { ClaimIsOpen }
{}
