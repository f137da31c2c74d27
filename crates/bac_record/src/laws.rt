//! Laws that are only about the definitions. The bodies do nothing: the contracts are the laws.

ghost use Rattle.std.specs.Prelude.{◌≡◌, List, ℕ};
ghost use Rattle.bac_record.specs.Records.{RecordsUpTo};

/// Octets are records and a rest in only one way.
pub fn records_are_unique()
    ensures { (most : ℕ) (list others : List (List ℕ)) (rest left octets : List ℕ) → RecordsUpTo most list rest octets
        → RecordsUpTo most others left octets → (list ≡ others) × (rest ≡ left) }
{}

/// All octets are records and a rest.
pub fn records_exist()
    ensures { (most : ℕ) (octets : List ℕ) → (list : List (List ℕ)) × (rest : List ℕ) × RecordsUpTo most list rest octets }
{}
