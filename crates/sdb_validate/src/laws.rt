//! What the checks mean.
ghost use Rattle.std.specs.Prelude.{◌≡◌, true, List};
ghost use Rattle.sdb_validate.specs.Types.{Record, Scan, Write};
ghost use Rattle.sdb_types.specs.Contents.{rise};
ghost use Rattle.sdb_phases.specs.Checks.{wanted, first_difference};
ghost use Rattle.sdb_validate.specs.Rescan.{reads_rise, IsFirstLost};

/// A rescan passes where each key is as the scan found it, and the base of each written key of the span has the version that
/// the scan found. Else its conflict is at the first key in key order that isn't, with what is there.
pub fn rescan_means()
    ensures { (own : List Write) (scan : Scan) (rows : List Record) → reads_rise scan.found ≡ true → rise rows ≡ true → IsFirstLost own scan rows (first_difference (wanted own scan) rows) }
{}
