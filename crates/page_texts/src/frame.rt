// What stands before the lines, and what behind them.

ghost use Rattle.page_texts.specs.Frame.{before, behind};
ghost use Rattle.text_pieces.specs.Pieces.{CanWrite, Writes};

use crate::body::body;
use crate::script_facts::script_facts;
use crate::script_keys::script_keys;
use crate::script_layout::script_layout;
use crate::script_lines::script_lines;
use crate::script_panes::script_panes;
use crate::script_rows::script_rows;
use crate::script_steps::script_steps;
use crate::style::style;
use text_pieces::{Pieces, Sink};

/// Writes what stands before the lines.
pub(crate) fn write_before<K: Sink>(out: &mut Pieces<'_, K>)
    requires { CanWrite K.Sink out.old }
    ensures { Writes K.Sink out.old out.new before }
{
    out.write(style());
    out.write(body());
}

/// Writes what stands behind them.
pub(crate) fn write_behind<K: Sink>(out: &mut Pieces<'_, K>)
    requires { CanWrite K.Sink out.old }
    ensures { Writes K.Sink out.old out.new behind }
{
    out.write(script_lines());
    out.write(script_facts());
    out.write(script_layout());
    out.write(script_rows());
    out.write(script_panes());
    out.write(script_steps());
    out.write(script_keys());
}
