// Parts of lines of JSON of a worked program.

use crate::part_tests::many_variables;
use flow_graph::Graph;
use json_parts::json_part_here;
use part_texts::{Share, merge};
use std::alloc::Global;
use std::process::Abort;
use std::test::Fail;
use tac_reader::read;

const TEXT: &[u8] = b"proc main\n  x = x + y\n  return\n  print x\nend\n";

const PROGRAM: &str =
    "{\"type\":\"program\",\"version\":1,\"points\":4,\"procedures\":[\"main\"],\"variables\":[\"x\",\"y\"],\"definitions\":3,\"expressions\":1}\n";

const POINTS: &str =
    "{\"type\":\"point\",\"point\":0,\"procedure\":\"main\",\"place\":0,\"line\":2,\"first\":13,\"last\":21,\"labels\":[],\
    \"statement\":\"x = x + y\",\"doubtful\":false,\"edges\":[{\"kind\":\"step\",\"to\":1}]}\n\
    {\"type\":\"point\",\"point\":1,\"procedure\":\"main\",\"place\":1,\"line\":3,\"first\":25,\"last\":30,\"labels\":[],\
    \"statement\":\"return\",\"doubtful\":false,\"edges\":[{\"kind\":\"step\",\"to\":3}]}\n\
    {\"type\":\"point\",\"point\":2,\"procedure\":\"main\",\"place\":2,\"line\":4,\"first\":34,\"last\":40,\"labels\":[],\
    \"statement\":\"print x\",\"doubtful\":false,\"edges\":[{\"kind\":\"step\",\"to\":3}]}\n\
    {\"type\":\"point\",\"point\":3,\"procedure\":\"main\",\"place\":3,\"line\":null,\"first\":null,\"last\":null,\"labels\":[],\
    \"statement\":null,\"doubtful\":false,\"edges\":[]}\n";

// The program has one group of variables and one of expressions, which are in part 2 of 2.
const SET: &str =
    "{\"type\":\"remark\",\"point\":0,\"line\":2,\"first\":13,\"last\":21,\"kind\":\"unset\",\"variable\":\"x\"}\n\
    {\"type\":\"remark\",\"point\":0,\"line\":2,\"first\":13,\"last\":21,\"kind\":\"unset\",\"variable\":\"y\"}\n\
    {\"type\":\"remark\",\"point\":0,\"line\":2,\"first\":13,\"last\":21,\"kind\":\"dead\",\"variable\":\"x\"}\n";

const NEVER: &str =
    "{\"type\":\"remark\",\"point\":2,\"line\":4,\"first\":34,\"last\":40,\"kind\":\"never_reached\"}\n";

const END: &str = "{\"type\":\"end\",\"points\":4}\n";

// A part of the lines of a text's program.
fn part(alloc: Global, text: &[u8], number: u32, count: u32) -> Result<Vec<u8>, Fail> {
    let share = Share::new(number, count).ok_or("a part")?;
    let program = read(alloc, text)?;
    let graph = Graph::build(alloc, &program)?;
    Ok(json_part_here(alloc, &graph, b"0a", share)?)
}

// What parts make.
fn merged(alloc: Global, parts: &[&[u8]]) -> Result<Vec<u8>, Fail> {
    match merge(alloc, parts)? {
        Ok(text) => Ok(text),
        Err(_) => Err(Fail::from("a fault")),
    }
}

#[test]
fn json_parts_of_a_program(rt: HostRuntime) -> Result<(), Fail> {
    let alloc = rt.alloc();
    let one = part(alloc, TEXT, 1, 2)?;
    let wanted = format!(in alloc;
        "{}{PROGRAM}{POINTS}{NEVER}{END}{}",
        "{\"type\":\"part\",\"version\":1,\"part\":1,\"parts\":2,\"digest\":\"0a\"}\n",
        "{\"type\":\"end-part\",\"part\":1}\n"
    )?;
    assert_eq!(rt; one.as_slice(), wanted.as_bytes());
    let two = part(alloc, TEXT, 2, 2)?;
    let wanted = format!(in alloc;
        "{}{PROGRAM}{SET}{}",
        "{\"type\":\"part\",\"version\":1,\"part\":2,\"parts\":2,\"digest\":\"0a\"}\n",
        "{\"type\":\"end-part\",\"part\":2}\n"
    )?;
    assert_eq!(rt; two.as_slice(), wanted.as_bytes());
    let all = merged(alloc, &[two.as_slice(), one.as_slice()])?;
    let lines = format!(in alloc; "{PROGRAM}{POINTS}{SET}{NEVER}{END}")?;
    assert_eq!(rt; all.as_slice(), lines.as_bytes());
    Ok(())
}

// The variables and the expressions of this program are three groups each. All three parts make what the one of one part does.
#[test]
fn json_parts_of_many_variables(rt: HostRuntime) -> Result<(), Fail> {
    let alloc = rt.alloc();
    let text = many_variables(alloc)?;
    let one = part(alloc, text.as_bytes(), 1, 3)?;
    let two = part(alloc, text.as_bytes(), 2, 3)?;
    let three = part(alloc, text.as_bytes(), 3, 3)?;
    assert!(rt;
        one.ends_with(
            b"\"kind\":\"dead\",\"variable\":\"r\"}\n{\"type\":\"end\",\"points\":1101}\n{\"type\":\"end-part\",\"part\":1}\n"
        )
    );
    assert!(rt;
        two.ends_with(
            b"\"kind\":\"unset\",\"variable\":\"v1022\"}\n{\"type\":\"end-part\",\"part\":2}\n"
        )
    );
    assert!(rt;
        three.ends_with(
            b"\"kind\":\"unset\",\"variable\":\"v1099\"}\n{\"type\":\"end-part\",\"part\":3}\n"
        )
    );
    let all = merged(alloc, &[three.as_slice(), one.as_slice(), two.as_slice()])?;
    let whole = part(alloc, text.as_bytes(), 1, 1)?;
    assert_eq!(rt;
        all.as_slice(),
        merged(alloc, &[whole.as_slice()])?.as_slice()
    );
    Ok(())
}
