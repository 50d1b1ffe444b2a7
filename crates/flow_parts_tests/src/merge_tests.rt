// Parts by hand, merged.

use part_texts::{MergeFault, PartFault, merge};
use std::process::Abort;
use std::test::Fail;

const ONE: &[u8] =
    b"part 1 of 3 of 0a\npoints 9, variables 3, definitions 6, expressions 3\n2: never reached\n\
    4: x may be used before it is set\n4: x + 1 is already computed\nend 1\n";

const TWO: &[u8] = b"part 2 of 3 of 0a\npoints 9, variables 3, definitions 6, expressions 3\n\
    4: y may be used before it is set\n4: y + 1 is very busy\n7: assignment to y is dead\nend 2\n";

const THREE: &[u8] = b"part 3 of 3 of 0a\npoints 9, variables 3, definitions 6, expressions 3\n\
    3: z * 2 is already computed\n4: z may be used before it is set\n7: z + 1 is very busy\nend 3\n";

const REPORT: &[u8] =
    b"points 9, variables 3, definitions 6, expressions 3\n2: never reached\n3: z * 2 is already computed\n\
    4: x may be used before it is set\n4: y may be used before it is set\n4: z may be used before it is set\n\
    4: x + 1 is already computed\n4: y + 1 is very busy\n7: z + 1 is very busy\n7: assignment to y is dead\n";

// Part 2 of another program, by its digest and by its first line, and of another number of parts.
const OTHER_DIGEST: &[u8] =
    b"part 2 of 3 of 0b\npoints 9, variables 3, definitions 6, expressions 3\nend 2\n";

const OTHER_COUNTS: &[u8] =
    b"part 2 of 3 of 0a\npoints 8, variables 3, definitions 6, expressions 3\nend 2\n";

const OTHER_COUNT: &[u8] =
    b"part 2 of 2 of 0a\npoints 9, variables 3, definitions 6, expressions 3\nend 2\n";

// Cut short at a line's end, within a line, and within the last line.
const CUT_AT_LINE: &[u8] =
    b"part 2 of 3 of 0a\npoints 9, variables 3, definitions 6, expressions 3\n4: y + 1 is very busy\n";

const CUT_IN_LINE: &[u8] =
    b"part 2 of 3 of 0a\npoints 9, variables 3, definitions 6, expressions 3\n4: y + 1 is ve";

const CUT_IN_LAST: &[u8] =
    b"part 2 of 3 of 0a\npoints 9, variables 3, definitions 6, expressions 3\n4: y + 1 is very busy\nend 2";

// No part: its number is above the count, it ends as another part, something stands behind its end, a line is no remark.
const PART_ABOVE: &[u8] =
    b"part 4 of 3 of 0a\npoints 9, variables 3, definitions 6, expressions 3\nend 4\n";

const OTHER_END: &[u8] =
    b"part 2 of 3 of 0a\npoints 9, variables 3, definitions 6, expressions 3\nend 3\n";

const MORE_BEHIND: &[u8] =
    b"part 2 of 3 of 0a\npoints 9, variables 3, definitions 6, expressions 3\nend 2\n4: y + 1 is very busy\n";

const NO_REMARK: &[u8] =
    b"part 2 of 3 of 0a\npoints 9, variables 3, definitions 6, expressions 3\n4: y is busy\nend 2\n";

// The three parts in each order.
#[test]
fn parts_in_each_order(rt: HostRuntime) -> Result<(), Fail> {
    let orders: [[&[u8]; 3]; 6] = [
        [ONE, TWO, THREE],
        [ONE, THREE, TWO],
        [TWO, ONE, THREE],
        [TWO, THREE, ONE],
        [THREE, ONE, TWO],
        [THREE, TWO, ONE],
    ];
    for texts in &orders {
        match merge(rt.alloc(), texts.as_slice())? {
            Ok(text) => assert_eq!(rt; text.as_slice(), REPORT),
            Err(_) => return Err(Fail::from("a fault")),
        }
    }
    Ok(())
}

// The fault of the second of four texts, the others being all three parts.
fn fault_of_second(rt: &HostRuntime, second: &[u8]) -> Result<Option<MergeFault>, Fail> {
    let texts: [&[u8]; 4] = [ONE, second, TWO, THREE];
    match merge(rt.alloc(), &texts)? {
        Ok(_) => Ok(None),
        Err(fault) => Ok(Some(fault)),
    }
}

#[test]
fn faults_of_texts(rt: HostRuntime) -> Result<(), Fail> {
    let rows: [(&[u8], PartFault); 13] = [
        (b"", PartFault::NoPart),
        (b"points 9", PartFault::NoPart),
        (ONE, PartFault::Double),
        (OTHER_DIGEST, PartFault::OtherProgram),
        (OTHER_COUNTS, PartFault::OtherProgram),
        (OTHER_COUNT, PartFault::OtherCount),
        (CUT_AT_LINE, PartFault::CutShort),
        (CUT_IN_LINE, PartFault::CutShort),
        (CUT_IN_LAST, PartFault::CutShort),
        (PART_ABOVE, PartFault::NoPart),
        (OTHER_END, PartFault::NoPart),
        (MORE_BEHIND, PartFault::NoPart),
        (NO_REMARK, PartFault::NoPart),
    ];
    for (second, fault) in &rows {
        let found = fault_of_second(&rt, second)?;
        let wanted = Some(MergeFault::InText {
            text: 1,
            fault: *fault,
        });
        assert!(rt; found == wanted);
    }
    Ok(())
}

#[test]
fn parts_that_are_missing(rt: HostRuntime) -> Result<(), Fail> {
    let rows: [(&[&[u8]], u32); 4] = [(&[], 1), (&[THREE], 1), (&[ONE], 2), (&[TWO, ONE], 3)];
    for (texts, part) in &rows {
        match merge(rt.alloc(), texts)? {
            Ok(_) => return Err(Fail::from("no fault")),
            Err(fault) => assert!(rt; fault == MergeFault::Missing { part: *part }),
        }
    }
    Ok(())
}
