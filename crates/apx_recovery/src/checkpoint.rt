//! How far checkpoints may come.
ghost use Rattle.std.specs.Prelude.{◌≡◌, ℕ, ◌<◌, ◌≤◌, ◌&&◌, true, cond, length, get_or, nat_lt};
ghost use Rattle.apx_recovery.specs.Checkpoints.{reaches, IsGreatest, IsLeast};

/// Whether a window is at most each of some.
fn reaches(window: u32, downstream: &[u32]) -> bool
    ensures { result ≡ reaches downstream.now window }
{
    downstream.iter().all(|other| window <= *other)
}

/// The later of two windows, where it is at most each of some, and else the first.
fn later(first: u32, window: u32, downstream: &[u32]) -> u32
    ensures { result ≡ cond (nat_lt first window && reaches downstream.now window) window first }
{
    if first < window && reaches(window, downstream) {
        window
    } else {
        first
    }
}

/// The window to which a partition's recovery checkpoint may come: the greatest of the saved ones that is at most each
/// recovery checkpoint `downstream`. The first that is saved has to be.
///
/// ```text
/// advance_to(&[0, 2, 4], &[3, 9]) == 2
/// advance_to(&[0, 2, 4], &[]) == 4
/// ```
pub fn advance_to(saved: &[u32], downstream: &[u32]) -> u32
    requires some { 0 < length saved.now }
    requires first { reaches downstream.now (get_or saved.now 0 0) ≡ true }
    ensures { IsGreatest saved.now downstream.now result }
{
    let mut greatest = saved[0];
    for window in saved {
        greatest = later(greatest, *window, downstream);
    }
    greatest
}

/// The window that is committed: the least of all recovery checkpoints.
///
/// ```text
/// committed(&[4, 2, 6]) == 2
/// ```
pub fn committed(checkpoints: &[u32]) -> u32
    requires { 0 < length checkpoints.now }
    ensures { IsLeast checkpoints.now result }
{
    let mut least = checkpoints[0];
    for checkpoint in checkpoints {
        least = least.min(*checkpoint);
    }
    least
}
