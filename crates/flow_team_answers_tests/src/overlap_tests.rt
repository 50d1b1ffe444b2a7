// That all workers find answers at the same time: each of the four analyses is a slice.

use crate::query_tests::{Way, check_way};
use std::test::Fail;
use team_probes::Meeting;

// So many workers, and their numbers as bits.
const TEAMS: &[(u32, u64)] = &[(2, 3), (3, 7), (4, 15)];

#[test]
fn workers_meet_over_answers(rt: HostRuntime) -> Result<(), Fail> {
    for (workers, numbers) in TEAMS {
        let (workers, gate) = (*workers, Meeting::new(*workers));
        let way = Way::Meeting {
            workers,
            gate: &gate,
        };
        check_way(&rt, way)?;
        assert_eq!(rt;
            (gate.met(), gate.met_by()),
            (1, *numbers),
            "{workers} workers"
        );
    }
    Ok(())
}

#[test]
fn workers_meet_each_time(rt: HostRuntime) -> Result<(), Fail> {
    for (workers, numbers) in TEAMS {
        let (workers, gate) = (*workers, Meeting::new(*workers));
        let way = Way::MeetingAgain {
            workers,
            gate: &gate,
        };
        check_way(&rt, way)?;
        assert_eq!(rt;
            (gate.met(), gate.met_by()),
            (2, *numbers),
            "{workers} workers"
        );
    }
    Ok(())
}
