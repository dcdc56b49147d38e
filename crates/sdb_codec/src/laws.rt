//! Laws of the spelling of records and keys.
ghost use Rattle.std.specs.Prelude.{◌≡◌, ℕ, List};
ghost use Rattle.sdb_codec.specs.Types.{Key, Record};
ghost use Rattle.sdb_types.specs.Fits.{key_fits, record_fits};
ghost use Rattle.sdb_codec.specs.Spelling.{key_bytes, record_bytes, KeyIsEncodable, RecordIsEncodable};
ghost use Rattle.sdb_codec.specs.Places.{Due, IsFirstWrong};

/// No two records have the same bytes, and no two keys do.
pub fn spelling_exact()
    ensures records { (r s : Record) → record_fits r → record_fits s → RecordIsEncodable r → RecordIsEncodable s → record_bytes r ≡ record_bytes s → r ≡ s }
    ensures keys { (k l : Key) → key_fits k → key_fits l → KeyIsEncodable k → KeyIsEncodable l → key_bytes k ≡ key_bytes l → k ≡ l }
{}

/// There is at most one first wrong place.
pub fn one_place()
    ensures { (due : List Due) (bytes : List ℕ) (p q : ℕ) → IsFirstWrong due bytes p → IsFirstWrong due bytes q → p ≡ q }
{}
