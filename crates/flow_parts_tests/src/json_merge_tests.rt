// Parts of lines of JSON by hand, merged.

use part_texts::{MergeFault, PartFault, merge};
use std::process::Abort;
use std::test::Fail;

const ONE: &[u8] =
    b"{\"type\":\"part\",\"version\":1,\"part\":1,\"parts\":3,\"digest\":\"0a\"}\n{\"type\":\"program\",\"version\":1}\n\
    {\"type\":\"point\",\"point\":0,\"place\":0}\n{\"type\":\"point\",\"point\":1,\"place\":1}\n\
    {\"type\":\"remark\",\"point\":1,\"line\":2,\"first\":3,\"last\":4,\"kind\":\"never_reached\"}\n\
    {\"type\":\"remark\",\"point\":10,\"line\":2,\"first\":3,\"last\":4,\"kind\":\"unset\",\"variable\":\"x\"}\n\
    {\"type\":\"remark\",\"point\":10,\"line\":2,\"first\":3,\"last\":4,\"kind\":\"computed\",\"expression\":\"x + 1\"}\n\
    {\"type\":\"end\",\"points\":2}\n{\"type\":\"end-part\",\"part\":1}\n";

const TWO: &[u8] =
    b"{\"type\":\"part\",\"version\":1,\"part\":2,\"parts\":3,\"digest\":\"0a\"}\n{\"type\":\"program\",\"version\":1}\n\
    {\"type\":\"remark\",\"point\":10,\"line\":2,\"first\":3,\"last\":4,\"kind\":\"unset\",\"variable\":\"y\"}\n\
    {\"type\":\"remark\",\"point\":10,\"line\":2,\"first\":3,\"last\":4,\"kind\":\"busy\",\"expression\":\"y + 1\"}\n\
    {\"type\":\"end-part\",\"part\":2}\n";

const THREE: &[u8] =
    b"{\"type\":\"part\",\"version\":1,\"part\":3,\"parts\":3,\"digest\":\"0a\"}\n{\"type\":\"program\",\"version\":1}\n\
    {\"type\":\"remark\",\"point\":9,\"line\":2,\"first\":3,\"last\":4,\"kind\":\"dead\",\"variable\":\"z\"}\n\
    {\"type\":\"remark\",\"point\":10,\"line\":2,\"first\":3,\"last\":4,\"kind\":\"computed\",\"expression\":\"z + 1\"}\n\
    {\"type\":\"end-part\",\"part\":3}\n";

// A point's number counts, and not its digits: 10 stands behind 9.
const LINES: &[u8] =
    b"{\"type\":\"program\",\"version\":1}\n{\"type\":\"point\",\"point\":0,\"place\":0}\n{\"type\":\"point\",\"point\":1,\"place\":1}\n\
    {\"type\":\"remark\",\"point\":1,\"line\":2,\"first\":3,\"last\":4,\"kind\":\"never_reached\"}\n\
    {\"type\":\"remark\",\"point\":9,\"line\":2,\"first\":3,\"last\":4,\"kind\":\"dead\",\"variable\":\"z\"}\n\
    {\"type\":\"remark\",\"point\":10,\"line\":2,\"first\":3,\"last\":4,\"kind\":\"unset\",\"variable\":\"x\"}\n\
    {\"type\":\"remark\",\"point\":10,\"line\":2,\"first\":3,\"last\":4,\"kind\":\"unset\",\"variable\":\"y\"}\n\
    {\"type\":\"remark\",\"point\":10,\"line\":2,\"first\":3,\"last\":4,\"kind\":\"computed\",\"expression\":\"x + 1\"}\n\
    {\"type\":\"remark\",\"point\":10,\"line\":2,\"first\":3,\"last\":4,\"kind\":\"computed\",\"expression\":\"z + 1\"}\n\
    {\"type\":\"remark\",\"point\":10,\"line\":2,\"first\":3,\"last\":4,\"kind\":\"busy\",\"expression\":\"y + 1\"}\n\
    {\"type\":\"end\",\"points\":2}\n";

// Of a report, of another program, by its digest and by its line, and of another number of parts.
const REPORT: &[u8] = b"part 2 of 3 of 0a\npoints 2\nend 2\n";

const OTHER_DIGEST: &[u8] =
    b"{\"type\":\"part\",\"version\":1,\"part\":2,\"parts\":3,\"digest\":\"0b\"}\n{\"type\":\"program\",\"version\":1}\n\
    {\"type\":\"end-part\",\"part\":2}\n";

const OTHER_PROGRAM: &[u8] =
    b"{\"type\":\"part\",\"version\":1,\"part\":2,\"parts\":3,\"digest\":\"0a\"}\n{\"type\":\"program\",\"version\":2}\n\
    {\"type\":\"end-part\",\"part\":2}\n";

const OTHER_COUNT: &[u8] =
    b"{\"type\":\"part\",\"version\":1,\"part\":2,\"parts\":2,\"digest\":\"0a\"}\n{\"type\":\"program\",\"version\":1}\n\
    {\"type\":\"end-part\",\"part\":2}\n";

// Cut short at a line's end, within a line, and within the last line.
const CUT_AT_LINE: &[u8] =
    b"{\"type\":\"part\",\"version\":1,\"part\":2,\"parts\":3,\"digest\":\"0a\"}\n{\"type\":\"program\",\"version\":1}\n";

const CUT_IN_LINE: &[u8] =
    b"{\"type\":\"part\",\"version\":1,\"part\":2,\"parts\":3,\"digest\":\"0a\"}\n{\"type\":\"program\",\"version\":1}\n\
    {\"type\":\"remark\",\"point\":10";

const CUT_IN_LAST: &[u8] =
    b"{\"type\":\"part\",\"version\":1,\"part\":2,\"parts\":3,\"digest\":\"0a\"}\n{\"type\":\"program\",\"version\":1}\n\
    {\"type\":\"end-part\",\"part\":2}";

// No part: of another version, it ends as another part, something stands behind its end, a line is none of JSON, a remark of no kind.
const OTHER_VERSION: &[u8] =
    b"{\"type\":\"part\",\"version\":2,\"part\":2,\"parts\":3,\"digest\":\"0a\"}\n{\"type\":\"program\",\"version\":1}\n\
    {\"type\":\"end-part\",\"part\":2}\n";

const OTHER_END: &[u8] =
    b"{\"type\":\"part\",\"version\":1,\"part\":2,\"parts\":3,\"digest\":\"0a\"}\n{\"type\":\"program\",\"version\":1}\n\
    {\"type\":\"end-part\",\"part\":3}\n";

const MORE_BEHIND: &[u8] =
    b"{\"type\":\"part\",\"version\":1,\"part\":2,\"parts\":3,\"digest\":\"0a\"}\n{\"type\":\"program\",\"version\":1}\n\
    {\"type\":\"end-part\",\"part\":2}\n{\"type\":\"end\",\"points\":2}\n";

const REPORT_LINE: &[u8] =
    b"{\"type\":\"part\",\"version\":1,\"part\":2,\"parts\":3,\"digest\":\"0a\"}\n{\"type\":\"program\",\"version\":1}\n\
    4: y + 1 is very busy\n{\"type\":\"end-part\",\"part\":2}\n";

const OTHER_KIND: &[u8] =
    b"{\"type\":\"part\",\"version\":1,\"part\":2,\"parts\":3,\"digest\":\"0a\"}\n{\"type\":\"program\",\"version\":1}\n\
    {\"type\":\"remark\",\"point\":10,\"line\":2,\"first\":3,\"last\":4,\"kind\":\"doubtful\",\"variable\":\"y\"}\n\
    {\"type\":\"end-part\",\"part\":2}\n";

// The three parts in each order.
#[test]
fn json_parts_in_each_order(rt: HostRuntime) -> Result<(), Fail> {
    let orders: [[&[u8]; 3]; 6] = [
        [ONE, TWO, THREE],
        [ONE, THREE, TWO],
        [TWO, ONE, THREE],
        [TWO, THREE, ONE],
        [THREE, ONE, TWO],
        [THREE, TWO, ONE],
    ];
    for texts in &orders {
        match merge(rt.alloc(), texts.as_slice())? {
            Ok(text) => assert_eq!(rt; text.as_slice(), LINES),
            Err(_) => return Err(Fail::from("a fault")),
        }
    }
    Ok(())
}

// The fault of the second of four texts, the others being all three parts.
fn fault_of_second(rt: &HostRuntime, second: &[u8]) -> Result<Option<MergeFault>, Fail> {
    let texts: [&[u8]; 4] = [ONE, second, TWO, THREE];
    match merge(rt.alloc(), &texts)? {
        Ok(_) => Ok(None),
        Err(fault) => Ok(Some(fault)),
    }
}

#[test]
fn faults_of_json_texts(rt: HostRuntime) -> Result<(), Fail> {
    let rows: [(&[u8], PartFault); 14] = [
        (LINES, PartFault::NoPart),
        (ONE, PartFault::Double),
        (REPORT, PartFault::OtherForm),
        (OTHER_DIGEST, PartFault::OtherProgram),
        (OTHER_PROGRAM, PartFault::OtherProgram),
        (OTHER_COUNT, PartFault::OtherCount),
        (CUT_AT_LINE, PartFault::CutShort),
        (CUT_IN_LINE, PartFault::CutShort),
        (CUT_IN_LAST, PartFault::CutShort),
        (OTHER_VERSION, PartFault::NoPart),
        (OTHER_END, PartFault::NoPart),
        (MORE_BEHIND, PartFault::NoPart),
        (REPORT_LINE, PartFault::NoPart),
        (OTHER_KIND, PartFault::NoPart),
    ];
    for (second, fault) in &rows {
        let found = fault_of_second(&rt, second)?;
        let wanted = Some(MergeFault::InText {
            text: 1,
            fault: *fault,
        });
        assert!(rt; found == wanted);
    }
    Ok(())
}

#[test]
fn json_parts_that_are_missing(rt: HostRuntime) -> Result<(), Fail> {
    let rows: [(&[&[u8]], u32); 3] = [(&[THREE], 1), (&[ONE], 2), (&[TWO, ONE], 3)];
    for (texts, part) in &rows {
        match merge(rt.alloc(), texts)? {
            Ok(_) => return Err(Fail::from("no fault")),
            Err(fault) => assert!(rt; fault == MergeFault::Missing { part: *part }),
        }
    }
    Ok(())
}
