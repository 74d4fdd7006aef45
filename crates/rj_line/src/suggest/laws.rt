//! A law of suggested types. The function does nothing; its contract is a theorem about all headers.

ghost use Rattle.std.specs.Prelude.{◌≡◌, ◌≢◌, [], ℕ, List, None, length};
ghost use Rattle.rj_columns.specs.Names.{name_fault};
ghost use Rattle.rj_columns.specs.declared.cell.ColumnType.{ColumnType};
ghost use Rattle.rj_settings.specs.Columns as given;
ghost use Rattle.rj_settings.specs.Lists.{IsTypeList};
ghost use Rattle.rj_line.specs.Listed.{list_in};
ghost use Rattle.rj_line.specs.Suggested.{column_lines, entries_of};

/// The lines of valid names and of types for them are a list by name. It gives the columns of these names these types, and each of its names
/// means one column. So [`list_of_lines`](crate::suggest::list_of_lines) and the reading of type lists read
/// back what [`suggest_types`](crate::suggest::suggest_types) gives, as the types that it suggests.
pub fn lines_are_read_back()
    ensures list { (names : List (List ℕ)) (kinds : List ColumnType) → names ≢ [] → length kinds ≡ length names → name_fault [] names ≡ None
        → IsTypeList (list_in (column_lines names kinds)) (entries_of names kinds) }
    ensures types { (names : List (List ℕ)) (kinds : List ColumnType) → names ≢ [] → length kinds ≡ length names → name_fault [] names ≡ None
        → given.types_under (entries_of names kinds) names ≡ kinds }
    ensures named { (names : List (List ℕ)) (kinds : List ColumnType) → length kinds ≡ length names → name_fault [] names ≡ None
        → given.name_fault (entries_of names kinds) names ≡ None }
{}
