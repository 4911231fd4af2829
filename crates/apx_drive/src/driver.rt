//! The driver's loop.
ghost use Rattle.std.specs.Prelude.{◌≡◌, ◌≤◌, [], length};
ghost use Rattle.apx_history.specs.Journals.{beginning};
ghost use Rattle.apx_history.specs.Laws.{bound};
ghost use Rattle.apx_drive.specs.Driven.{IsDriven, drawn, behind};

use crate::desk::Desk;
use apx_history::{choices_are_exact, is_bounded};
use rand_core::utils::NextWord;
use rand_pcg::Lcg64Xsh32;

/// The stream of the generator.
const STREAM: u64 = 0;

/// Drives a run from its begin until it ends or stops.
///
/// At each turn the event is that of the choices whose place is the next number of `Lcg64Xsh32` (O'Neill's PCG32) from the
/// order on stream 0, modulo their number. So the same order gives the same run anywhere. It always comes to an end, and
/// within the bound of the plan.
///
/// ```text
/// let desk = drive(desk, 7);
/// ```
pub fn drive<D: Desk + Drop>(desk: D, order: u64) -> D
    requires { (D.place desk).journal ≡ [] }
    ensures driven { IsDriven D.plan order (beginning D.plan D.stored D.from) (D.place result) }
    ensures bound { length (D.place result).journal ≤ bound D.plan }
{
    is_bounded();
    choices_are_exact();
    let mut desk = desk;
    let mut words = Lcg64Xsh32::new(order, STREAM);
    desk.facts();
    while desk.is_running() {
        let at = draw(&mut words) % desk.count();
        let event = desk.pick(at);
        let done = desk.turn(event);
        desk.facts();
        if done.is_err() {
            return desk;
        }
    }
    desk
}

/// The next number of a generator.
#[tactic(auto, unfolding(crate::specs::Driven::drawn, crate::specs::Driven::behind))]
fn draw(words: &mut Lcg64Xsh32) -> u32
    ensures drawn { result ≡ drawn words.old }
    ensures behind { words.new ≡ behind words.old }
{
    words.next_word()
}
