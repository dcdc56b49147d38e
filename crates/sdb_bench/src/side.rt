//! The two tables of a bench.
ghost use Rattle.std.specs.Prelude.{◌≡◌, true};
ghost use Rattle.sdb_types.specs.Identifier.{is_name};
ghost use Rattle.sdb_bench.specs.Setup.{namespace_of};

/// One of the two tables of a bench.
#[derive(Clone, Copy, Debug, PartialEq, Eq)]
pub enum Side {
    Left,
    Right,
}

impl Side {
    ghost use Rattle.std.specs.Prelude.{◌≡◌, true};
    ghost use Rattle.sdb_types.specs.Identifier.{is_name};
    ghost use Rattle.sdb_bench.specs.Setup.{namespace_of};

    /// The namespace of the table.
    pub fn namespace(self) -> &'static str
        ensures text { result.now ≡ namespace_of self }
        ensures named { is_name result.now ≡ true }
    {
        match self {
            Side::Left => "benchl",
            Side::Right => "benchr",
        }
    }
}
