// What came and what went, in lines of a label.

ghost use Rattle.std.specs.Prelude.{◌≡◌, ◌<◌, flat_map, map, true};
ghost use Rattle.flow_graph.specs.Points.{point_count};
ghost use Rattle.flow_views.specs.Dots.{changed_lines, changed_names, changes_on, label_line};
ghost use Rattle.flow_views.specs.code.ViewProgram.{AreShown, IsShownPoint, IsShownTable, known_of};
ghost use Rattle.flow_views.specs.declared.names.NameForm.TheVariants.{Escaped};
ghost use Rattle.point_sets.specs.SetLines.{columns};
ghost use Rattle.point_sets.specs.Sets.{has_behind};
ghost use Rattle.point_sets.specs.code.Changes.{IsChange, old_set, told_by};
ghost use Rattle.point_sets.specs.code.Lines.{blank_line, names_on};
ghost use Rattle.point_sets.specs.declared.side.Side.TheVariants.{Behind};
ghost use Rattle.text_pieces.specs.Pieces.{CanWrite, Writes};
ghost use Rattle.text_pieces.specs.Strings.{escaped};
ghost use Rattle.text_pieces.specs.code.Lists.{some_stand};

use flow_team::Table;
use flow_views::{ViewProgram, analysis_name};
use point_sets::{Change, Side, came_text, side_text};
use text_pieces::{Pieces, Sink};

// Writes the names of what came, or went, behind so many signs of its first line.
fn write_changed_names<K: Sink>(
    shown: &ViewProgram<'_>,
    out: &mut Pieces<'_, K>,
    change: &Change<'_>,
    came: bool,
    column: usize,
)
    requires ready { CanWrite K.Sink out.old }
    requires shown { AreShown shown.now }
    requires form { shown.now.names.form ≡ Escaped }
    requires change { IsChange change.now }
    requires graph { change.now.new.graph.now ≡ shown.now.found.graph.now }
    requires hides { change.now.new.hides_entry ≡ shown.now.view.look.hides_entry }
    requires column { column < columns }
    ensures { Writes K.Sink out.old out.new (names_on (blank_line column)
        (map escaped (changed_names shown.now.found.graph.now shown.now.view
        change.now.new.table.now.analysis came (old_set change.now) (told_by change.now.new)))) }
{
    let analysis = change.new.table.analysis();
    let bits = shown.found.graph.bits(analysis);
    change.write_names(out, shown.names(analysis), came, bits, column);
}

// Whether anything came, or went.
fn has_changed(shown: &ViewProgram<'_>, change: &Change<'_>, came: bool) -> bool
    requires shown { AreShown shown.now }
    requires change { IsChange change.now }
    requires graph { change.now.new.graph.now ≡ shown.now.found.graph.now }
    requires hides { change.now.new.hides_entry ≡ shown.now.view.look.hides_entry }
    ensures { result ≡ some_stand (changed_names shown.now.found.graph.now shown.now.view
        change.now.new.table.now.analysis came (old_set change.now) (told_by change.now.new)) }
{
    let bits = shown.found.graph.bits(change.new.table.analysis());
    change.has_any(came, bits)
}

// Writes what came, or went, in lines; none where it is nothing.
fn write_changed_lines<K: Sink>(
    shown: &ViewProgram<'_>,
    out: &mut Pieces<'_, K>,
    change: &Change<'_>,
    side: Side,
    came: bool,
)
    requires ready { CanWrite K.Sink out.old }
    requires shown { AreShown shown.now }
    requires form { shown.now.names.form ≡ Escaped }
    requires change { IsChange change.now }
    requires graph { change.now.new.graph.now ≡ shown.now.found.graph.now }
    requires hides { change.now.new.hides_entry ≡ shown.now.view.look.hides_entry }
    ensures { Writes K.Sink out.old out.new (flat_map label_line (changed_lines shown.now.found.graph.now shown.now.view
        change.now.new.table.now.analysis side came (old_set change.now) (told_by change.now.new))) }
{
    if !has_changed(shown, change, came) {
        return;
    }
    let name = analysis_name(change.new.table.analysis());
    let came_name = came_text(came);
    let side_name = side_text(side);
    out.write(name);
    out.write(came_name);
    out.write(side_name);
    write_changed_names(
        shown,
        out,
        change,
        came,
        name.len() + came_name.len() + side_name.len(),
    );
    out.write(b"\\l");
}

/// Writes what changes up to a side of a statement.
pub(crate) fn write_changes_on<K: Sink>(
    shown: &ViewProgram<'_>,
    out: &mut Pieces<'_, K>,
    table: &Table,
    point: u32,
    side: Side,
)
    requires ready { CanWrite K.Sink out.old }
    requires shown { AreShown shown.now }
    requires form { shown.now.names.form ≡ Escaped }
    requires table { IsShownTable shown.now table.now }
    requires point { point < point_count shown.now.found.graph.now }
    requires shows { IsShownPoint shown.now point }
    requires side { side ≡ Behind → has_behind shown.now.found.graph.now point ≡ true }
    ensures { Writes K.Sink out.old out.new
        (flat_map label_line (changes_on shown.now.found.graph.now (known_of shown.now) shown.now.view point table.now.analysis side)) }
{
    let change = shown.change(table, point, side);
    write_changed_lines(shown, out, &change, side, true);
    write_changed_lines(shown, out, &change, side, false);
}
