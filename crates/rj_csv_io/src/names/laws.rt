//! Laws of the definitions. The functions do nothing; their contracts are theorems.

ghost use Rattle.std.specs.Prelude.{◌≡◌, ◌∷◌, ◌<◌, ◌^◌, ◌⊎◌, All, List, None, [], drop, false, length, slice_index_or, take, true, ℕ};
ghost use Rattle.csv.specs.Reading.{records, strip_bom};
ghost use Rattle.rj_columns.specs.Names.{is_name, name_fault};
ghost use Rattle.rj_csv_io.specs.Completed.{completed, header_of, is_left};
ghost use Rattle.rj_csv_io.specs.Named.{completed_names, needs_name};
ghost use Rattle.rj_csv_io.specs.Grammar.{may_delimit};
ghost use Rattle.rj_csv_io.specs.StrictReading.{config_of};

/// The records of a text under its completed header are the completed names, and then the records
/// below the header as it was written.
pub fn completed_records()
    ensures { (d : ℕ) (bytes : List ℕ) → may_delimit d ≡ true → is_left (header_of d bytes) ≡ false
        → records (config_of d) (strip_bom (completed d bytes)) ≡ completed_names (header_of d bytes) ∷ drop 1 (records (config_of d) (strip_bom bytes)) }
{}

/// There are as many completed names as fields. A field that has a name of its own keeps it. If
/// each field is empty or a lawful name, the completed names are lawful, and no two are the same
/// when ASCII case is ignored.
pub fn completed_names_are_lawful()
    ensures count { (fields : List (List ℕ)) → length (completed_names fields) ≡ length fields }
    ensures kept { (fields : List (List ℕ)) (i : ℕ) → i < length fields → needs_name (take i fields) (slice_index_or fields i []) ≡ false
        → slice_index_or (completed_names fields) i [] ≡ slice_index_or fields i [] }
    ensures lawful { (fields : List (List ℕ)) → length fields < 2 ^ 32 → All (λ f. (f ≡ []) ⊎ (is_name f ≡ true)) fields
        → name_fault [] (completed_names fields) ≡ None }
{}
