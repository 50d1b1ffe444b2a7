// How points are written.

ghost use Rattle.std.specs.Prelude.{◌≡◌, ◌<◌, ℕ, List};
ghost use Rattle.flow_graph.specs.Points.{point_count};
ghost use Rattle.text_pieces.specs.Pieces.{CanWrite, Writes};
ghost use Rattle.flow_views.specs.code.ViewProgram.{AreShown, IsShownPoint};
ghost use Rattle.flow_views.specs.declared.names.NameForm.{NameForm};
ghost use Rattle.flow_views.specs.declared.view_program.ViewProgram.{ViewProgram as ViewValue};

use crate::view_program::ViewProgram;
use text_pieces::{Pieces, Sink};

/// How one point is written.
pub trait PointForm {
    // How the names of bits are written there.
    ghost name_form: { Self → NameForm };

    ghost text: { Self → ViewValue → ℕ → List ℕ };

    /// Writes a point that is shown.
    ///
    /// The conditions: it is one program that is shown, with names in this form, and the point is one of those that are shown.
    fn write_point<K: Sink>(&self, out: &mut Pieces<'_, K>, shown: &ViewProgram<'_>, point: u32)
        requires ready { CanWrite K.Sink out.old }
        requires shown { AreShown shown.now }
        requires form { shown.now.names.form ≡ name_form self.now }
        requires point { point < point_count shown.now.found.graph.now }
        requires shows { IsShownPoint shown.now point }
        ensures { Writes K.Sink out.old out.new (text self.now shown.now point) };
}
