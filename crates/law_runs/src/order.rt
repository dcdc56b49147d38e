//! The order of the recorded transactions.
ghost use Rattle.std.specs.Prelude.{List};
ghost use Rattle.law_runs.specs.Types.{Event, Point, TxId};
ghost use Rattle.sdb_model.specs.Transactions.{IsOrder};
ghost use Rattle.law_protocol.specs.Runs.{AreOfIds};
ghost use Rattle.law_runs.specs.Order.{AreIds, HasRisen, RisenIds};
ghost use Rattle.law_runs.specs.Points.{HavePoints};

/// Where a list has the ids of the recorded transactions, their points by rising event are the order.
pub fn points_are_order()
    ensures order { (r : RisenIds) → HavePoints r.places r.events r.closing → IsOrder r.places r.events r.closing r.order }
    ensures fits { (events : List Event) (ids : List TxId) (order : List Point) → AreIds ids → HasRisen events ids order → AreOfIds order }
{}
