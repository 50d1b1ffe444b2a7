// What a call answers: a status, and where a text is refused.

ghost use Rattle.std.specs.Prelude.{◌≡◌, Some};
ghost use Rattle.tacflow_c.specs.Statuses.{fault_in, place_after, status_of};

use flow_records::Fault;

/// Why a text is no program, and where: the refusal's number, its line, from 1, and its column, in bytes from 1.
#[repr(C)]
#[derive(Clone, Copy)]
pub struct Place {
    pub number: u32,
    pub line: u32,
    pub column: u32,
}

/// The status of a fault. The place of a refusal is told too.
pub(crate) fn fault_status(fault: Fault, place: &mut Place) -> u32
    ensures status { result ≡ status_of (Some fault) }
    ensures place { place.new ≡ place_after (Some fault) place.old }
{
    match fault {
        Fault::Refused(refusal) => {
            *place = Place {
                number: u32::from(refusal.kind.number()),
                line: refusal.line,
                column: refusal.column,
            };
            1
        }
        Fault::OutOfMemory => 2,
        Fault::BadAnalysis => 3,
        Fault::BadRange => 4,
        Fault::BadRoom => 5,
        Fault::BadLimits => 7,
        Fault::BadHandle => 8,
        Fault::TooManyPoints => 21,
        Fault::TooManyBits => 22,
    }
}

/// The status of an answer: 0, or that of a fault. The place of a refusal is told too.
pub(crate) fn answer_status(answer: Result<(), Fault>, place: &mut Place) -> u32
    ensures status { result ≡ status_of (fault_in answer) }
    ensures place { place.new ≡ place_after (fault_in answer) place.old }
{
    match answer {
        Ok(()) => 0,
        Err(fault) => fault_status(fault, place),
    }
}

/// The status of an answer over a handle: 0, or that of a fault.
pub(crate) fn asked_status(answer: Result<(), Fault>) -> u32
    ensures { result ≡ status_of (fault_in answer) }
{
    let mut place = Place {
        number: 0,
        line: 0,
        column: 0,
    };
    answer_status(answer, &mut place)
}
