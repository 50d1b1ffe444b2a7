//! What tests of refused memory share. With ample memory such a test ends as all others. Where a request is refused (`checks/refused`),
//! the call that met it is made once more and has to give what is known by hand, or has written nothing; then the test fails by the
//! call's name. There is no third: one that fails by want of memory met it before its calls, behind them, or twice.

use std::test::Fail;

/// The call that was refused, where one was.
pub type Refused = Option<&'static str>;

/// The failure that names a call which was refused.
pub fn refusal_of(call: &'static str) -> Fail {
    Fail::new(format_args!("refused: {call}"))
}

/// Fails by the name of the call that was refused.
pub fn named(refused: Refused) -> Result<(), Fail> {
    match refused {
        Some(call) => Err(refusal_of(call)),
        None => Ok(()),
    }
}

/// What a call gives. Where it is refused, its name is kept, and it is made once more.
#[macro_export]
macro_rules! again {
    ($refused:expr, $name:expr, $call:expr) => {
        match $call {
            Ok(made) => made,
            Err(_) => {
                $refused = Some($name);
                $call?
            }
        }
    };
}

/// What comes of a run that writes: with ample memory this answer. Where it was refused memory it wrote nothing, and the test fails by
/// its name.
#[macro_export]
macro_rules! all_or_nothing {
    ($rt:expr, $name:expr, $outcome:expr, $refusal:pat, $taken:expr, $answer:expr) => {
        match $outcome {
            Ok(()) => {
                assert_eq!($rt; $taken, $answer);
                Ok(())
            }
            Err($refusal) => {
                assert!($rt; $taken.is_empty());
                Err($crate::refusal_probes::refusal_of($name))
            }
            Err(_) => Err(std::test::Fail::from("another fault")),
        }
    };
}
