//! Type lists.

ghost use Rattle.std.specs.Prelude.{◌≡◌, ◌≢◌, ◌&&◌, IfOk, IfErr, List, codes, false, is_some, true};
ghost use Rattle.clap.specs.Words.{first_value, found_of};
ghost use Rattle.rj_line.specs.Forms.{is_short};
ghost use Rattle.rj_line.specs.Types.{AreTypesOf, GivesNoShared, GivesNoTypes, GivesShared, GivesTypes, completed, is_auto};
ghost use Rattle.rj_settings.specs.Columns.{is_open};
ghost use Rattle.rj_settings.specs.Lists.{IsTypeList};

use crate::fault::{Fault, Side};
use crate::flags::is_word;
use crate::form::{Form, is_short};
use clap::ArgMatches;
use rj_settings::types::{
    TypeEntry, is_open, read_list, read_shared_list, with_shared, with_texts,
};
use std::alloc::{AllocError, Global};

/// The entries of this side's type list, such as `int,num(4,1)` or `id=int,*=text`.
///
/// # Errors
///
/// `BadTypeList` if the text isn't such a list. `Memory` comes only when memory ran out.
pub fn read_types(alloc: Global, text: &str, side: Side) -> Result<Vec<TypeEntry>, Fault>
    ensures types { IfOk result (λ v. IsTypeList text.now v.items) }
    ensures fault { IfErr result (λ e. e ≢ Fault.Memory →
        (e ≡ Fault.BadTypeList side) × ((types : List TypeEntry) → IsTypeList text.now types → ⊥)) }
{
    match read_list(alloc, text) {
        Ok(Some(entries)) => Ok(entries),
        Ok(None) => Err(Fault::BadTypeList(side)),
        Err(_) => Err(Fault::Memory),
    }
}

/// The types of a side's columns.
#[derive(Drop)]
pub(crate) struct SideTypes {
    /// The entries of its list.
    pub(crate) entries: Vec<TypeEntry>,
    /// Whether the types of those columns that no entry names aren't declared.
    pub(crate) undeclared: bool,
}

// The entries of the list that an option gives. Where columns needn't be declared, it may give none.
fn listed(
    alloc: Global,
    matches: &ArgMatches<'_>,
    name: &str,
    side: Side,
    form: Form,
) -> Result<Vec<TypeEntry>, Fault>
    requires { is_short form ≡ false → is_some (first_value (found_of matches.now) name.now) ≡ true }
    ensures types { IfOk result (λ v. GivesTypes form (first_value (found_of matches.now) name.now) v.items) }
    ensures fault { IfErr result (λ f. f ≢ Fault.Memory → (f ≡ Fault.BadTypeList side) × GivesNoTypes (first_value (found_of matches.now) name.now)) }
{
    let _form = form;
    match matches.get_str(name) {
        Some(text) => read_types(alloc, text, side),
        None => Ok(Vec::new(alloc)),
    }
}

/// Whether the types that the cells suggest are asked for, in place of a list for both tables.
pub(crate) fn is_auto(matches: &ArgMatches<'_>) -> bool
    ensures { result ≡ is_auto (first_value (found_of matches.now) (codes "types")) }
{
    is_word(matches, "types", "auto")
}

/// The entries of the list for both tables, if the line has one. The word `auto` lists none.
///
/// # Errors
///
/// `BadSharedTypeList` if the option's value is neither. `Memory` comes only when
/// memory ran out.
pub(crate) fn shared_types_of(
    alloc: Global,
    matches: &ArgMatches<'_>,
) -> Result<Vec<TypeEntry>, Fault>
    ensures types { IfOk result (λ v. GivesShared (first_value (found_of matches.now) (codes "types")) v.items) }
    ensures fault { IfErr result (λ f. f ≢ Fault.Memory →
        (f ≡ Fault.BadSharedTypeList) × GivesNoShared (first_value (found_of matches.now) (codes "types"))) }
{
    let Some(text) = matches.get_str("types") else {
        return Ok(Vec::new(alloc));
    };
    if text == "auto" {
        return Ok(Vec::new(alloc));
    }
    match read_shared_list(alloc, text) {
        Ok(Some(entries)) => Ok(entries),
        Ok(None) => Err(Fault::BadSharedTypeList),
        Err(_) => Err(Fault::Memory),
    }
}

// The entries of a side's list with those for both tables, and in the short form with that of all
// other columns.
fn completed_entries(
    alloc: Global,
    listed: Vec<TypeEntry>,
    shared: &[TypeEntry],
    form: Form,
) -> Result<Vec<TypeEntry>, AllocError>
    ensures { IfOk result (λ v. v.items ≡ completed form shared.now listed.items) }
{
    let entries = with_shared(alloc, listed, shared)?;
    match form {
        Form::Long => Ok(entries),
        Form::Short => with_texts(entries),
    }
}

// The types that these entries and those for both tables give a side's columns.
fn completed(
    alloc: Global,
    listed: Vec<TypeEntry>,
    shared: &[TypeEntry],
    form: Form,
) -> Result<SideTypes, Fault>
    ensures types { IfOk result (λ t. t.entries.items ≡ completed form shared.now listed.items) }
    ensures undeclared { IfOk result (λ t. t.undeclared ≡ (is_short form && is_open listed.items)) }
    ensures fault { IfErr result (λ f. f ≡ Fault.Memory) }
{
    let undeclared = is_short(form) && is_open(listed.as_slice());
    match completed_entries(alloc, listed, shared, form) {
        Ok(entries) => Ok(SideTypes {
            entries,
            undeclared,
        }),
        Err(_) => Err(Fault::Memory),
    }
}

/// The types of a side's columns: those that the list of an option gives. Columns of which it says
/// nothing have those of the list for both tables. In the short form, columns of which neither says
/// anything are of texts, and undeclared.
///
/// # Errors
///
/// `BadTypeList` if the option's value isn't a list. `Memory` comes only when memory ran out.
pub(crate) fn types_of(
    alloc: Global,
    matches: &ArgMatches<'_>,
    name: &str,
    side: Side,
    shared: &[TypeEntry],
    form: Form,
) -> Result<SideTypes, Fault>
    requires { is_short form ≡ false → is_some (first_value (found_of matches.now) name.now) ≡ true }
    ensures types { IfOk result (λ t. AreTypesOf form shared.now (first_value (found_of matches.now) name.now) t.entries.items t.undeclared) }
    ensures fault { IfErr result (λ f. f ≢ Fault.Memory → (f ≡ Fault.BadTypeList side) × GivesNoTypes (first_value (found_of matches.now) name.now)) }
{
    let listed = listed(alloc, matches, name, side, form)?;
    completed(alloc, listed, shared, form)
}
