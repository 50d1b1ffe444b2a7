// The labels of a place.

ghost use Rattle.std.specs.Prelude.{◌≡◌, ℕ, ◌<◌, ◌≤◌, length, slice_index_or};
ghost use Rattle.tac_program.specs.Programs.{LabelsRise};
ghost use Rattle.tac_program.specs.declared.program.Label.{Label as LabelValue};
ghost use Rattle.flow_views.specs.Views.{labels_of_place};

use tac_program::Label;

// How many labels stand for places before this one: labels stand in the order of their places.
fn labels_before(labels: &[Label], place: u64) -> usize
    requires { LabelsRise labels.now }
    ensures within { result ≤ length labels.now }
    ensures before { (k : ℕ) (d : LabelValue) → k < result → (slice_index_or labels.now k d).place < place }
    ensures behind { (k : ℕ) (d : LabelValue) → result ≤ k → k < length labels.now → place ≤ (slice_index_or labels.now k d).place }
{
    labels.partition_point(|label| (label.place as u64) < place)
}

/// The labels that stand for a place, of labels in the order of their places.
pub(crate) fn labels_of_place(labels: &[Label], place: u32) -> &[Label]
    requires { LabelsRise labels.now }
    ensures { result.now ≡ labels_of_place place labels.now }
{
    let place = place as u64;
    let first = labels_before(labels, place);
    let end = labels_before(labels, place + 1);
    &labels[first..end]
}
