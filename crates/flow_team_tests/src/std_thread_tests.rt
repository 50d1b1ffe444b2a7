// That the standard helpers which may start the workers run two activities at the same time: each sets its flag, and goes round
// until the other's is set.

use std::sync::Arc;
use std::sync::atomic::{AtomicBool, Ordering};
use std::test::Fail;
use std::thread;
use team_probes::comes;

#[derive(Drop)]
struct Flags {
    first: AtomicBool,
    second: AtomicBool,
}

impl Flags {
    fn new() -> Flags {
        Flags {
            first: AtomicBool::new(false),
            second: AtomicBool::new(false),
        }
    }

    // Whether the other activity came while this one looked for it.
    fn meet(&self, is_first: bool) -> bool {
        let (mine, other) = if is_first {
            (&self.first, &self.second)
        } else {
            (&self.second, &self.first)
        };
        mine.store(true, Ordering::SeqCst);
        comes(&|| other.load(Ordering::SeqCst))
    }
}

#[derive(Clone, Copy)]
struct Any;

impl thread::Promise<bool> for Any {
    ghost use Rattle.std.specs.Prelude.{⊤};

    ghost kept_by = { λ _ _. ⊤ };
}

#[test]
fn join_overlaps(rt: HostRuntime) -> Result<(), Fail> {
    let flags = Flags::new();
    let met = thread::join(&rt, || flags.meet(true), || flags.meet(false));
    assert_eq!(rt; met, (true, true));
    Ok(())
}

#[test]
fn join_mut_overlaps(rt: HostRuntime) -> Result<(), Fail> {
    let flags = Flags::new();
    let (mut first, mut second) = (false, false);
    thread::join_mut(
        &rt,
        &mut || first = flags.meet(true),
        &mut || second = flags.meet(false),
    );
    assert_eq!(rt; (first, second), (true, true));
    Ok(())
}

#[test]
fn map_indices_overlaps(rt: HostRuntime) -> Result<(), Fail> {
    let flags = Flags::new();
    let met = thread::map_indices(&rt, rt.alloc(), 2, &|i| flags.meet(i == 0))?;
    assert!(rt; !met.contains(&false));
    Ok(())
}

#[test]
fn map_vec_overlaps(rt: HostRuntime) -> Result<(), Fail> {
    let flags = Flags::new();
    let sides = vec![in rt.alloc(); true, false]?;
    let met = thread::map_vec(&rt, sides, &|is_first| flags.meet(is_first))?;
    assert!(rt; !met.contains(&false));
    Ok(())
}

#[test]
fn map_chunks_overlaps(rt: HostRuntime) -> Result<(), Fail> {
    let flags = Flags::new();
    let met = thread::map_chunks(
        &rt,
        rt.alloc(),
        &[true, false],
        1,
        &|_, part: &[bool]| { flags.meet(part[0]) },
    )?;
    assert!(rt; !met.contains(&false));
    Ok(())
}

#[test]
fn spawn_with_overlaps(rt: HostRuntime) -> Result<(), Fail> {
    let flags = Arc::new(rt.alloc(), Flags::new())?;
    let theirs = Arc::try_clone(&flags)?;
    let child = thread::spawn_with(&rt, Any, move || theirs.meet(true))?;
    let second = flags.meet(false);
    assert_eq!(rt; (child.join(&rt), second), (true, true));
    Ok(())
}
