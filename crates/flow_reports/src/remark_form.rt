// How remarks are written.

ghost use Rattle.std.specs.Prelude.{◌<◌, ℕ, List};
ghost use Rattle.flow_graph.specs.Points.{point_count};
ghost use Rattle.tac_program.specs.Programs.{Program};
ghost use Rattle.flow_reports.specs.code.Findings.{AreChosenFindings, AreFindings, IsRemarkIn};
ghost use Rattle.text_pieces.specs.Pieces.{CanWrite, Writes};
ghost use Rattle.flow_reports.specs.declared.findings.Findings.{Findings as FoundValue};
ghost use Rattle.flow_reports.specs.declared.remark.Remark.{Remark as RemarkValue};

use crate::findings::Findings;
use crate::remark::Remark;
use text_pieces::{Pieces, Sink};

/// How one remark is written, as the line of a report.
pub trait RemarkForm {
    ghost text: { Self → Program → ℕ → RemarkValue → List ℕ };

    /// Writes a remark on the statement at a point.
    ///
    /// The conditions: what was found is of one program, and it has the point and what the remark names.
    fn write_remark<K: Sink>(
        &self,
        out: &mut Pieces<'_, K>,
        found: &Findings<'_>,
        point: u32,
        remark: Remark,
    )
        requires ready { CanWrite K.Sink out.old }
        requires found { AreFindings found.now }
        requires point { point < point_count found.now.graph.now }
        requires remark { IsRemarkIn found.now.graph.now remark }
        ensures { Writes K.Sink out.old out.new (text self.now found.now.graph.now point remark) };
}

/// How one remark is written of findings that may be of chosen bits alone.
pub trait ChosenForm {
    ghost text: { Self → Program → ℕ → RemarkValue → List ℕ };

    ghost is_for: { Self → FoundValue → Type 0 };

    /// Writes a remark on the statement at a point.
    ///
    /// The conditions: what was found is such as the form is for, of one program, and it has the point and what the remark names.
    fn write_remark<K: Sink>(
        &self,
        out: &mut Pieces<'_, K>,
        found: &Findings<'_>,
        point: u32,
        remark: Remark,
    )
        requires ready { CanWrite K.Sink out.old }
        requires fits { is_for self.now found.now }
        requires found { AreChosenFindings found.now }
        requires point { point < point_count found.now.graph.now }
        requires remark { IsRemarkIn found.now.graph.now remark }
        ensures { Writes K.Sink out.old out.new (text self.now found.now.graph.now point remark) };
}

/// A form for findings of all bits.
#[derive(Clone, Copy)]
pub(crate) struct WholeForm<'a, F> {
    pub(crate) form: &'a F,
}

impl<F: RemarkForm> ChosenForm for WholeForm<'_, F> {
    ghost text = { λ whole program point remark. F.text whole.form.now program point remark };

    ghost is_for = { λ _ found. AreFindings found };

    fn write_remark<K: Sink>(
        &self,
        out: &mut Pieces<'_, K>,
        found: &Findings<'_>,
        point: u32,
        remark: Remark,
    ) {
        self.form.write_remark(out, found, point, remark);
    }
}
