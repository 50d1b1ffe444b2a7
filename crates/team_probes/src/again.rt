// Calls that were refused memory: what they left, and what they tell where they are made once more.

use crate::gates::Recorder;
use flow_team::TeamFault;
use std::test::Fail;
use test_support::refusal_probes::refusal_of;

/// What a call that was refused tells the second time, where it is not refused again: the test then fails by the call's name.
pub fn answered_again(
    lines: Option<String>,
    want: &str,
    call: &'static str,
) -> Result<String, Fail> {
    let Some(lines) = lines else {
        return Err(Fail::from(TeamFault::OutOfMemory));
    };
    let same = lines.as_str() == want;
    if same {
        Err(refusal_of(call))
    } else {
        Err(Fail::new("another answer the second time"))
    }
}

/// The failure that names a call that was refused, and the slice that it left unfinished, where that is the last one that was claimed.
pub fn left_by(call: &'static str, gate: &Recorder) -> Fail {
    let (claimed, finished, _, _) = gate.counts();
    let left = claimed & !finished;
    if left == 0 {
        Fail::new(format_args!("refused: {call}, which leaves no slice"))
    } else if finished == left - 1 {
        let slice = left.trailing_zeros();
        Fail::new(format_args!("refused: {call}, which leaves slice {slice}"))
    } else {
        Fail::new(format_args!("refused: {call}, which leaves a slice before the last"))
    }
}
