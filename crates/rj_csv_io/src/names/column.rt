//! A column of a header, with the name that it has or was given.

ghost use Rattle.std.specs.Prelude.{◌≡◌, string_bytes};
ghost use Rattle.rj_csv_io.specs.Internal.NameColumns.{column_in};
ghost use Rattle.rj_csv_io.specs.Named.{Column};

/// A name that a column was given.
#[derive(Debug, Drop)]
pub struct GivenName {
    /// The number of the column, from 1.
    pub column: u64,
    /// Its name.
    pub name: String,
}

/// A column's name: the header's field, or one that it was given.
#[derive(Drop)]
pub(crate) enum NamedColumn<'a> {
    Written(&'a [u8]),
    Given(String),
}

impl NamedColumn<'_> {
    /// The bytes of the name.
    pub(crate) fn name(&self) -> &[u8]
        ensures { result.now ≡ (column_in self.now).name }
    {
        match self {
            NamedColumn::Written(field) => field,
            NamedColumn::Given(name) => name.as_bytes(),
        }
    }
}
