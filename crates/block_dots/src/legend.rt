// The legend of a picture of blocks.

ghost use Rattle.flow_views.specs.Dots.{text_if};
ghost use Rattle.text_pieces.specs.Pieces.{CanWrite, Writes};
ghost use Rattle.block_dots.specs.BlockDots.{block_legend, legend_sets};

use dot_texts::{write_legend_begin, write_legend_edges, write_legend_marks};
use text_pieces::{Pieces, Sink};

// Writes what the lines of facts tell.
fn write_legend_sets<K: Sink>(out: &mut Pieces<'_, K>)
    requires { CanWrite K.Sink out.old }
    ensures { Writes K.Sink out.old out.new legend_sets }
{
    out.write(
        b"ANALYSIS gen: what it generates and does not kill beyond\\lANALYSIS kill: what its statements kill\\l\
        ANALYSIS IN: what holds before it\\lANALYSIS OUT: what holds behind it\\l",
    );
}

// Writes the legend.
fn write_block_legend<K: Sink>(out: &mut Pieces<'_, K>)
    requires { CanWrite K.Sink out.old }
    ensures { Writes K.Sink out.old out.new block_legend }
{
    write_legend_begin(out);
    write_legend_sets(out);
    write_legend_marks(out);
    write_legend_edges(out);
}

/// Writes the legend where it is asked for.
pub(crate) fn write_legend_if<K: Sink>(out: &mut Pieces<'_, K>, is_asked: bool)
    requires { CanWrite K.Sink out.old }
    ensures { Writes K.Sink out.old out.new (text_if is_asked block_legend) }
{
    if !is_asked {
        return;
    }
    write_block_legend(out);
}
