//! The passes of a session's channel.

ghost use Rattle.std.specs.Prelude.{◌≡◌, ◌<◌, ◌≤◌, ◌+◌, ◌∷◌, vec_capacity, vec_len};

use completion_ticket::Done;
use shared_channel::Pass;
use worker_rounds::Team;

/// The first of a channel's passes makes its turns, the second is its owner's, and the others are its workers'.
pub(crate) fn parts_of<B: Done + Drop>(passes: Vec<Pass<B>>) -> (Pass<B>, Team<B>)
    requires { 2 ≤ vec_len passes }
    ensures parts { result.0 ∷ result.1.owner ∷ result.1.workers.items ≡ passes.items }
    ensures len { vec_len result.1.workers + 2 ≡ vec_len passes }
    ensures room { vec_len result.1.workers + 1 < vec_capacity result.1.workers }
{
    let mut workers = passes;
    let turner = workers.remove(0);
    let owner = workers.remove(0);
    (turner, Team { owner, workers })
}

/// All passes again, in their order.
pub(crate) fn all_of<B: Done + Drop>(turner: Pass<B>, team: Team<B>) -> Vec<Pass<B>>
    requires { vec_len team.workers + 1 < vec_capacity team.workers }
    ensures { result.items ≡ turner ∷ team.owner ∷ team.workers.items }
{
    let Team { owner, mut workers } = team;
    workers.insert(0, owner).unwrap();
    workers.insert(0, turner).unwrap();
    workers
}
