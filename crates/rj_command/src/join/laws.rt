//! Laws of what is written. Each function does nothing; its contract is a theorem about every run.

ghost use Rattle.std.specs.Prelude.{◌≡◌, List, Ok, true, ℕ};
ghost use Rattle.rj_columns.specs.Tables.{TableValue};
ghost use Rattle.rj_condition.specs.declared.bound.BoundJoin.{BoundJoin};
ghost use Rattle.rj_command.specs.ReadBack.{IsReadable, written_table};
ghost use Rattle.rj_command.specs.Runs.{AreNames, IsJoined, chosen_text, joined_text};
ghost use Rattle.rj_command.specs.declared.join.stats.Stats.{Stats};
ghost use Rattle.rj_command.specs.Sides.{nulls_of};
ghost use Rattle.rj_csv_io.specs.Ambiguous.{AreApart};
ghost use Rattle.rj_csv_io.specs.Tables.{read_of};
ghost use Rattle.rj_csv_io.specs.Typed.{is_null_field};
ghost use Rattle.rj_engine.specs.Chosen.{chosen_view, is_plain};
ghost use Rattle.rj_line.specs.declared.request.Request.{Request};
ghost use Rattle.rj_csv_io.specs.Grammar.{may_delimit};
ghost use Rattle.rj_settings.specs.declared.choice.Repeated.TheVariants.{Kept};

use rj_line::fault::Side;

/// If a request chooses all rows of the joined table in their own order, and all columns under
/// their own names, the text that is written is that of the joined table.
pub fn plain_text()
    ensures { (q : Request) (join : BoundJoin) (l r : TableValue) (names : List (List ℕ)) → is_plain q.choice ≡ true → q.choice.repeated ≡ Kept
        → AreNames q join l r names → chosen_text q names join l r ≡ joined_text q.out_delimiter q.out_null.now join l r }
{}

/// What a run writes reads back without an error, by the delimiter that it wrote: as the table of
/// what it chose of the joined table, under the names that it wrote and by the types of the columns
/// from which these come. The names are valid if repeated ones are renamed.
pub fn results_read_back()
    ensures { (left right text : List ℕ) (q : Request) (stats : Stats) (nulls : List (List ℕ)) (j : IsJoined left right q stats text)
        → may_delimit q.out_delimiter ≡ true → IsReadable q nulls j.names j.join j.l j.r
        → read_of q.out_delimiter text (written_table q j.names j.join j.l j.r).types nulls ≡ Ok (written_table q j.names j.join j.l j.r) }
{}

/// No cell of what a run writes is a text that is a NULL text of both tables, since no cell of the
/// tables is.
pub fn results_are_apart()
    ensures { (left right text null : List ℕ) (q : Request) (stats : Stats) (j : IsJoined left right q stats text)
        → is_null_field (nulls_of q Side.Left) null ≡ true → is_null_field (nulls_of q Side.Right) null ≡ true
        → AreApart null (chosen_view q.choice j.join j.l j.r).cells }
{}
