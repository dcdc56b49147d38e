//! What the calls of a client's VACUUM lead to.
ghost use Rattle.std.specs.Prelude.{◌≡◌, IfSome, IsSome, IsSomeAnd};
ghost use Rattle.sdb_phases.specs.Steps.{CanGet};
ghost use Rattle.sdb_client.specs.Client.{VacuumPost};
ghost use Rattle.sdb_client.specs.Inside.{vacuum_asked};
ghost use Rattle.sdb_vacuum.specs.Vacuum.{Gives, vacuum_pending, vacuum_step};

use crate::answers::answer_of;
use sdb_model::Answer;
use sdb_types::Reply;
use sdb_vacuum::{Vacuum, VacuumStep};

// Hands the reply to the VACUUM that is under way.
fn advance(vacuum: &mut Option<Vacuum>, reply: Reply, now: i64) -> VacuumStep
    requires pending { IsSome (vacuum_asked vacuum.old) }
    requires reply { CanGet (vacuum_asked vacuum.old) reply }
    ensures step { IfSome vacuum.old (λ v. IsSomeAnd vacuum.new (λ w. Gives (vacuum_step v now reply) w result)) }
    ensures more { result ≡ VacuumStep.More → IsSome (vacuum_asked vacuum.new) }
{
    match vacuum {
        Some(vacuum) => vacuum.advance(reply, now),
        None => VacuumStep::NoMemory,
    }
}

/// Takes the reply to the pending call of a VACUUM. Its answer ends the VACUUM.
pub fn vacuum_advance(vacuum: &mut Option<Vacuum>, reply: Reply, now: i64) -> Option<Answer>
    requires pending { IsSome (vacuum_asked vacuum.old) }
    requires reply { CanGet (vacuum_asked vacuum.old) reply }
    ensures answered { IfSome vacuum.old (λ v. VacuumPost v reply now result vacuum.new) }
    ensures asks { IfSome vacuum.new (λ w. IsSome (vacuum_pending w)) }
{
    let step = advance(vacuum, reply, now);
    if step != VacuumStep::More {
        *vacuum = None;
    }
    answer_of(step)
}
