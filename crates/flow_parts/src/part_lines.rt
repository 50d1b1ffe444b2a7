// Which remarks are in a part, and their lines.

ghost use Rattle.std.specs.Prelude.{◌≡◌, ◌*◌, ◌-◌, ◌<◌, ◌≤◌, ◌^◌, [], length, if◌then◌else◌};
ghost use Rattle.flow_graph.specs.Points.{point_count};
ghost use Rattle.flow_reports.specs.Reports.{remark_line};
ghost use Rattle.flow_reports.specs.code.Findings.{AreChosenFindings, IsRemarkIn};
ghost use Rattle.text_pieces.specs.Pieces.{CanWrite, Writes};
ghost use Rattle.flow_parts.specs.Cuts.{cut_end, groups_of, is_in_cut, is_in_part};
ghost use Rattle.flow_parts.specs.code.Bits.{AreOfPart};

use flow_graph::{Analysis, Graph};
use flow_reports::{ChosenForm, Findings, Remark, words_before_name, words_behind_name};
use flow_texts::{line, write_number};
use report_answers::{ChosenBits, WordRange};
use text_pieces::{Pieces, Sink};

/// A part of so many.
#[derive(Clone, Copy)]
pub(crate) struct Share {
    pub(crate) count: u32,
    pub(crate) part: u32,
    ghost first: { 1 ≤ part },
    ghost last: { part ≤ count },
    ghost few: { count ≤ 4096 },
}

// Whether a bit is in a part, in the cut of so many.
fn is_in_cut(bits: u32, share: Share, bit: u32) -> bool
    ensures { result ≡ is_in_cut bits share.count share.part bit }
{
    let (count, part) = (u64::from(share.count), u64::from(share.part));
    let groups = (u64::from(bits) + 511) / 512;
    let group = u64::from(bit) / 512;
    (part - 1) * groups / count <= group && group < part * groups / count
}

// Where a part ends in the cut of so many bits, in words; before the first part it is 0.
fn end_word(bits: u32, count: u32, part: u32) -> u32
    requires some { 1 ≤ count }
    requires last { part ≤ count }
    requires few { count ≤ 4096 }
    ensures { result ≡ 8 * cut_end (groups_of bits) count part }
{
    let groups = (u64::from(bits) + 511) / 512;
    let end = u64::from(part) * groups / u64::from(count);
    8 * end as u32
}

// The words of a part in the cut of so many bits.
fn words_of(bits: u32, share: Share) -> WordRange
    ensures first { result.first ≡ 8 * cut_end (groups_of bits) share.count (share.part - 1) }
    ensures end { result.end ≡ 8 * cut_end (groups_of bits) share.count share.part }
{
    WordRange {
        first: end_word(bits, share.count, share.part - 1),
        end: end_word(bits, share.count, share.part),
    }
}

/// The bits of a part.
pub(crate) fn bits_of(graph: &Graph<'_>, share: Share) -> ChosenBits
    ensures { AreOfPart graph.now share.count share.part result }
{
    ChosenBits::Words {
        variables: words_of(graph.bits(Analysis::Live), share),
        expressions: words_of(graph.bits(Analysis::Avail), share),
    }
}

// Whether a remark is in a part.
fn is_in_part(graph: &Graph<'_>, share: Share, remark: Remark) -> bool
    ensures { result ≡ is_in_part graph.now share.count share.part remark }
{
    match remark {
        Remark::NeverReached => share.part == 1,
        Remark::Unset { variable } => is_in_cut(graph.bits(Analysis::Live), share, variable),
        Remark::Computed { expression } => is_in_cut(
            graph.bits(Analysis::Avail),
            share,
            expression,
        ),
        Remark::VeryBusy { expression } => is_in_cut(graph.bits(Analysis::Busy), share, expression),
        Remark::Dead { variable } => is_in_cut(graph.bits(Analysis::Live), share, variable),
    }
}

/// Whether a remark is in a part.
///
/// The conditions: the part is from 1 on and at most the count, and that at most 4,096.
pub fn is_remark_of_part(graph: &Graph<'_>, count: u32, part: u32, remark: Remark) -> bool
    requires first { 1 ≤ part }
    requires last { part ≤ count }
    requires few { count ≤ 4096 }
    ensures { result ≡ is_in_part graph.now count part remark }
{
    is_in_part(graph, Share { count, part }, remark)
}

// Writes the line of a remark.
fn write_line<K: Sink>(out: &mut Pieces<'_, K>, found: &Findings<'_>, point: u32, remark: Remark)
    requires ready { CanWrite K.Sink out.old }
    requires found { AreChosenFindings found.now }
    requires point { point < point_count found.now.graph.now }
    requires remark { IsRemarkIn found.now.graph.now remark }
    ensures { Writes K.Sink out.old out.new (remark_line found.now.graph.now point remark) }
{
    write_number(out, line(found.graph, point));
    out.write(b": ");
    out.write(words_before_name(remark));
    out.write(found.chosen_name(remark));
    out.write(words_behind_name(remark));
    out.write(b"\n");
}

impl ChosenForm for Share {
    ghost text = { λ share program point remark. if is_in_part program share.count share.part remark then remark_line program point remark else [] };

    ghost is_for = { λ _ _. Unit {0} };

    fn write_remark<K: Sink>(
        &self,
        out: &mut Pieces<'_, K>,
        found: &Findings<'_>,
        point: u32,
        remark: Remark,
    ) {
        if !is_in_part(found.graph, *self, remark) {
            return;
        }
        write_line(out, found, point, remark);
    }
}
