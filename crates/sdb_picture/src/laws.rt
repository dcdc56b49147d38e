//! Laws of what is drawn.
ghost use Rattle.std.specs.Prelude.{◌≡◌};
ghost use Rattle.sdb_model.specs.declared.event.Outcome.{Outcome};
ghost use Rattle.sdb_picture.specs.Lanes.{lanes_of};
ghost use Rattle.sdb_picture.specs.Arrows.{answer_of, answers_from, arrow_of, calls_from, landing_of, landings_from, marks_in, statement_of, texts_from};
ghost use Rattle.sdb_picture.specs.Marks.{picture_of};

/// Each call is exactly one arrow, in its row, from its client to its store, with what became of it, and nothing else is one.
pub fn calls_are_arrows()
    ensures { (o : Outcome) → marks_in arrow_of (picture_of o).groups ≡ calls_from (lanes_of o.events) 0 o.events }
{}

/// Each text that is accepted is exactly one statement, in its row, at its client, and nothing else is one.
pub fn texts_are_statements()
    ensures { (o : Outcome) → marks_in statement_of (picture_of o).groups ≡ texts_from (lanes_of o.events) 0 o.events }
{}

/// Each answer is exactly one mark, in its row, at its client, and nothing else is one.
pub fn answers_are_marked()
    ensures { (o : Outcome) → marks_in answer_of (picture_of o).groups ≡ answers_from (lanes_of o.events) 0 o.events }
{}

/// Each landing is exactly one arrow of no client, in its row, to its store, with what became of it, and nothing else is one.
pub fn landings_are_drawn()
    ensures { (o : Outcome) → marks_in landing_of (picture_of o).groups ≡ landings_from (lanes_of o.events) 0 o.events }
{}
