//! Laws of the definitions.

ghost use Rattle.std.specs.Prelude.{◌≡◌, ◌<◌, ◌++◌, List, ℕ, Bool, true, length};
ghost use Rattle.csv.specs.Reading.{records};
ghost use Rattle.rj_csv_io.specs.Grammar.{Derives, File, file_text, may_delimit, names_of, records_of};
ghost use Rattle.rj_csv_io.specs.JoinedTexts.{joined};
ghost use Rattle.rj_csv_io.specs.StrictReading.{config_of, quoted, without_empty};
ghost use Rattle.rj_csv_io.specs.declared.strict.header.HeaderPlace.{HeaderPlace};
ghost use Rattle.rj_csv_io.specs.declared.strict.header.HeaderPlace.TheVariants.{Above, First};

/// A text has at most one derivation.
pub fn one_derivation()
    ensures { (d : ℕ) (header : HeaderPlace) (full : Bool) (text : List ℕ) (file other : File)
        → may_delimit d ≡ true → Derives d header full text file → Derives d header full text other → file ≡ other }
{}

/// The library `csv`, with this delimiter, its other defaults and no header of its own, reads the
/// records of the derivation from a text that is derived, without its empty lines.
pub fn reads_records()
    ensures { (d : ℕ) (header : HeaderPlace) (full : Bool) (text : List ℕ) (file : File)
        → may_delimit d ≡ true → Derives d header full text file → records (config_of d) text ≡ records_of (without_empty file) }
{}

/// With more than one name these are all records of the derivation.
pub fn reads_all_records()
    ensures { (d : ℕ) (header : HeaderPlace) (full : Bool) (text : List ℕ) (file : File)
        → may_delimit d ≡ true → Derives d header full text file → 1 < names_of header file.lines → records (config_of d) text ≡ records_of file }
{}

/// If `""` is put into each empty line of a text that is derived, all records of the derivation are
/// read from it.
pub fn reads_quoted_records()
    ensures { (d : ℕ) (header : HeaderPlace) (full : Bool) (text : List ℕ) (file : File)
        → may_delimit d ≡ true → Derives d header full text file → records (config_of d) (file_text d (quoted file)) ≡ records_of file }
{}

/// Take two texts that are derived. Each record of the first has its line end, and the second is
/// under its header. Together they are derived as one: as the lines of the first and then the
/// second.
pub fn joined_texts()
    ensures { (d : ℕ) (header : HeaderPlace) (full : Bool) (text more : List ℕ) (file other : File)
        → may_delimit d ≡ true → Derives d header true text file → 0 < length file.lines → Derives d (Above (names_of header file.lines)) full more other
        → Derives d header full (text ++ more) (joined file other) }
{}

/// A text that is derived under more than one name has no empty line. So it is derived with its
/// header in it too.
pub fn derived_with_header()
    ensures { (d names : ℕ) (full : Bool) (text : List ℕ) (file : File)
        → 1 < names → may_delimit d ≡ true → Derives d (Above names) full text file → Derives d First full text file }
{}
