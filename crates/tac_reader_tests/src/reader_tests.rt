ghost use Rattle.std.specs.Prelude.{◌≡◌};
ghost use Rattle.tac_reader.specs.Parses.{program_of};

use std::alloc::Global;
use std::process::Abort;
use tac_reader::{
    Label, Limits, OutOfMemory, Program, ReadFault, Span, Stmt, listing, read, read_within,
};
use test_support::worked_programs::spacing::TEXT as SPACING;
use test_support::worked_programs::{listed, recursion, refused, smallest};

/// Every statement form.
const FORMS: &[u8] =
    b"proc main\r\nL:M: x=y+007 # seven\nz=- x\nx=~x\nx=!0\nx=x\nif x<3 goto L\nif x goto M\n\
    ifFalse 10 goto N\ngoto N\n\ncall f|main\nN: read y\nprint 18\nskip\nreturn\nend\nproc f\n\
    x=1-2\nx=x*x\nx=x/y\nx=x%y\nx=x&y\nx=x|y\nx=x^y\nx=x<<y\nx=x>>y\nx=x<=y\nx=x>=y\nx=x==y\nx=x!=y\nx=x>y\nend";

const FORMS_LISTING: &str =
    "proc main\nL:\nM:\n  x = y + 7\n  z = -x\n  x = ~x\n  x = !0\n  x = x\n  if x < 3 goto L\n  \
    if x goto M\n  ifFalse 10 goto N\n  goto N\n  call f | main\nN:\n  read y\n  print 18\n  \
    skip\n  return\nend\nproc f\n  x = 1 - 2\n  x = x * x\n  x = x / y\n  x = x % y\n  \
    x = x & y\n  x = x | y\n  x = x ^ y\n  x = x << y\n  x = x >> y\n  x = x <= y\n  x = x >= y\n  x = x == y\n  x = x != y\n  x = x > y\nend\n";

const NAME_64: &str = "nnnnnnnnnnnnnnnnnnnnnnnnnnnnnnnnnnnnnnnnnnnnnnnnnnnnnnnnnnnnnnnn";

/// Labels whose names fall together in a table, if no digest of the text is hashed before them.
const FALLING_TOGETHER: &[u8] =
    b"aaclN:aacou:aacSa:aadzl:aafLs:aakj_:aaoeZ:aarFo:aav8S:aayiC:aazv0:aazAO:aaBPd:aaBRe:aaC2C:aaEaq:aaHT1:aaINk:aaJOU:aaMcN:aaMjO:aaNld:aaNrZ:aaQlw\
    :aaQs8:aaQIY:aaRgy:aaV7v:aaWwp:aaXJU:aaXZI:aa_nh:aa2h1:aa4c4:aa4A7:aa6xw:aa7eC:aa7Kj:aa9r0:abaf5:abbLs:abb4Y:abnFo:abpGz:abqmd:abtIc:abtL4:abvJz:\
    abvKK:abw5e:abxCt:abAjS:abCRb:abJau:abJsG:abM6T:abNag:abOWD:abO09:abQij:abR0J:abTRa:abVk_:ab2oP:ab3Tg:ab4tY:ab5BR:ab5C6:ab6Of:acdDn:acfuG:acipF:a\
    cixh:aclKQ:acmB_:acpOk:actrU:acv6B:aczVi:acC7e:acGAz:acMHI:acOwA:acQbZ:acQlZ:acRjW:acVNu:acW20:ac_sN:ac4mh:ac8FA:ac9Dh:adcSr:adeMo:adgAk:adlL_:ad\
    l6g:adm0Z:adnE5:adnVX:adroh:advvv:adx9H:adzv7:adBYY:adCWp:adKm8:adKOO:adLms:adMEh:adNs1:adOuW:adQX2:adQ6I:adRF3:adTkd:adT5B:adYHF:ad_dG:ad0nf:ad0\
    AR:ad1He:ad7us:aeaVa:aefIg:aejra:aekOb:aeuxL:aeuRG:aexkG:aeybL:aezqe:aeAuQ:aeC0E:aeDxO:aeEvk:aeEwM:aeE2m:aeFtJ:aeF6n:aeGrQ:aeHte:aeHBI:aeJdK:aeJF\
    t:aeKEm:aePfa:aeReA:aeVyE:aeYA8:ae_dS:ae4_U:ae5bg:ae5JT:ae61v:afb3a:afcZW:affnT:afhmY:afjzd:afpOy:afrbP:afrdF:afrsX:afu4m:afABo:afE7L:afHkb:afIK0\
    :afKvq:afL3e:afOpp:afO8X:afQEL:afRuC:afWBu:afYFD:af04D:af3Zr:af6YB:af7oy:af9uS:af9vP:agbzk:agdX0:aggAm:aggEK:agg7Y:agi8_:agjIR:agj_F:agj8O:agmgy:\
    agoJg:agph9:agtB_:ague3:agA6G:agCd0:agCvk:agCRT:agK5F:agPji:agRnc:agVsZ:agX0t:ag0OX:ag6QF:ag6_w:ag8Y3:ahaXp:ahbpK:ahdEc:ahdJN:ahmR0:ahnM1:ahp9u:a\
    hrbG:ahtDb:ahtM8:ahudO:ahuzw:ahyGe:ahCze:ahCOb:ahDkg:ahElb:ahGFN:ahHgD:ahHAK:ahIDI:ahK2R:ahL5H:ahQpa:ahQAu:ahR9R:ahSZK:ahUbF:ahVOv:ahWIH:ahXOz:ah\
    2BR:ah2Ce:ah6h1:ah6Tg:ah7Bw:ah9wF:aidM5:aifir:aihfg:aij3a:aikQV:aioZy:aiqAS:ait4h:aiuLu:aivzZ:aiv2R:aiwW2:aiyKH:aiAuc:aiBi5:aiBCC:aiCqe:aiC01:aiD\
    LW:aiFu1:aiKhy:aiKzr:aiLUz:";

/// The listing of a program that is lent, so that its owner below makes one call and leaves in one way.
fn listed_program(alloc: Global, program: &Program) -> Result<Vec<u8>, ReadFault> {
    match listing(alloc, program) {
        Ok(listed) => Ok(listed),
        Err(_) => Err(ReadFault::OutOfMemory),
    }
}

/// The listing of a text's program.
fn listed(alloc: Global, text: &[u8]) -> Result<Vec<u8>, ReadFault> {
    match read(alloc, text) {
        Ok(program) => listed_program(alloc, &program),
        Err(fault) => Err(fault),
    }
}

/// The same within the large limits.
fn listed_within_large(alloc: Global, text: &[u8]) -> Result<Vec<u8>, ReadFault> {
    match read_within(alloc, text, Limits::Large) {
        Ok(program) => listed_program(alloc, &program),
        Err(fault) => Err(fault),
    }
}

/// The listing of a program, or the message of why the text is none.
fn text_of(alloc: Global, listed: Result<Vec<u8>, ReadFault>) -> Result<String, OutOfMemory> {
    match listed {
        Ok(listed) => String::from_utf8_lossy(alloc, listed.as_slice()),
        Err(ReadFault::OutOfMemory) => Err(OutOfMemory),
        Err(fault) => fault.to_string(alloc),
    }
}

/// What is told of a text that is read.
fn answer(alloc: Global, text: &[u8]) -> Result<String, OutOfMemory> {
    text_of(alloc, listed(alloc, text))
}

/// The one comparison of texts, since each that is written out is proved again. It tells what was tried, and its row.
fn same(rt: &impl Abort, tried: &str, row: usize, got: &str, want: &str) {
    assert_eq!(rt; got, want, "{tried}, row {row}");
}

/// Each text has the answer beside it.
fn check_answers(
    rt: &impl Abort,
    alloc: Global,
    rows: &[(&[u8], &str)],
) -> Result<(), OutOfMemory> {
    for (row, (text, want)) in rows.iter().enumerate() {
        same(rt, "texts", row, answer(alloc, text)?.as_str(), want);
    }
    Ok(())
}

/// The text is the listing of its own program.
fn check_listing(rt: &impl Abort, alloc: Global, text: &str) -> Result<(), OutOfMemory> {
    same(
        rt,
        "a listing",
        0,
        answer(alloc, text.as_bytes())?.as_str(),
        text,
    );
    Ok(())
}

#[test]
fn refuses_lines(rt: HostRuntime) -> Result<(), OutOfMemory> {
    check_answers(&rt, rt.alloc(), refused::LINES)
}

/// Lines of more than 32 tokens, which are judged before they are read whole. The first 16 labels have 32 tokens and 32 bytes.
const LONG_LINES: [(&[u8], &str); 8] = [
    (
        b"proc main\nx x x x x x x x x x x x x x x x x x x x x x x x x x x x x x x x x x x x x x x x \nend\n",
        "2:3: refusal 4: Syntax",
    ),
    (
        b"proc main\nx x x x x x x x x x x x x x x x x x x x x x x x x x x x x x x x x x x x x x x x $\nend\n",
        "2:3: refusal 4: Syntax",
    ),
    (
        b"proc main\nx $x x x x x x x x x x x x x x x x x x x x x x x x x x x x x x x x x x x x x x x x \nend\n",
        "2:3: refusal 1: BadByte",
    ),
    (
        b"proc main\nx = 9223372036854775808 x x x x x x x x x x x x x x x x x x x x x x x x x x x x x x x x x x x x x x x x \nend\n",
        "2:5: refusal 2: NumberTooLarge",
    ),
    (
        b"proc main\na:b:c:d:e:f:g:h:i:j:k:l:m:n:o:p:x x = 1\nend\n",
        "2:35: refusal 4: Syntax",
    ),
    (
        b"proc main\na:b:c:d:e:f:g:h:i:j:k:l:m:n:o:p:7 x = 1\nend\n",
        "2:33: refusal 4: Syntax",
    ),
    (
        b"proc main\na:b:c:d:e:f:g:h:i:j:k:l:m:n:o:x x = 1\nend\n",
        "2:33: refusal 4: Syntax",
    ),
    (
        b"proc main\na:b:c:d:e:f:g:h:i:j:k:l:m:n:o:p:q:x = 1\nend\n",
        "proc main\na:\nb:\nc:\nd:\ne:\nf:\ng:\nh:\ni:\nj:\nk:\nl:\nm:\nn:\no:\np:\nq:\n  x = 1\nend\n",
    ),
];

#[test]
fn judges_long_lines(rt: HostRuntime) -> Result<(), OutOfMemory> {
    check_answers(&rt, rt.alloc(), &LONG_LINES)
}

#[test]
fn refuses_names(rt: HostRuntime) -> Result<(), OutOfMemory> {
    check_answers(&rt, rt.alloc(), refused::NAMES)
}

#[test]
fn refuses_bytes(rt: HostRuntime) -> Result<(), OutOfMemory> {
    check_answers(&rt, rt.alloc(), refused::BYTES)
}

/// The answer of a text in three parts.
fn answer_of_parts(
    alloc: Global,
    before: &[u8],
    middle: &[u8],
    after: &[u8],
) -> Result<String, OutOfMemory> {
    let mut text = before.to_vec(alloc)?;
    text.extend_from_slice(middle)?;
    text.extend_from_slice(after)?;
    answer(alloc, text.as_slice())
}

/// What stands before a byte and behind it, and the answer, which is the same for each of the bytes 0, 13 and 255: out of a comment
/// they begin no token, and in one they are passed over.
const AROUND_A_BYTE: [(&[u8], &[u8], &str); 8] = [
    (b"", b"", "1:1: refusal 1: BadByte"),
    (b"proc ma", b"in\nend\n", "1:8: refusal 1: BadByte"),
    (b"proc main\nx = ", b" 1\nend\n", "2:5: refusal 1: BadByte"),
    (
        b"proc main\nx = 1 ",
        b" # c\nend\n",
        "2:7: refusal 1: BadByte",
    ),
    (b"proc main\nend", b" \n", "2:4: refusal 1: BadByte"),
    (b"proc main #", b"\nend\n", "proc main\nend\n"),
    (
        b"proc main\nx = 1 # a ",
        b" b\nend\n",
        "proc main\n  x = 1\nend\n",
    ),
    (b"proc main\nend\n#", b"", "proc main\nend\n"),
];

/// Around each middle, by its name, each row has its answer.
fn check_around(
    rt: &impl Abort,
    alloc: Global,
    rows: &[(&[u8], &[u8], &str)],
    middles: &[(&str, &[u8])],
) -> Result<(), OutOfMemory> {
    for (tried, middle) in middles {
        for (row, (before, after, want)) in rows.iter().enumerate() {
            let answer = answer_of_parts(alloc, before, middle, after)?;
            same(rt, tried, row, answer.as_str(), want);
        }
    }
    Ok(())
}

const BYTES: [(&str, &[u8]); 3] = [("byte 0", &[0]), ("byte 13", &[13]), ("byte 255", &[255])];

#[test]
fn bytes_in_and_out_of_comments(rt: HostRuntime) -> Result<(), OutOfMemory> {
    check_around(&rt, rt.alloc(), &AROUND_A_BYTE, &BYTES)
}

#[test]
fn refuses_every_beginning_of_the_smallest(rt: HostRuntime) -> Result<(), OutOfMemory> {
    check_answers(&rt, rt.alloc(), refused::BEGINNINGS)?;
    let rows = [
        (b"proc main\nend".as_slice(), smallest::TEXT),
        (smallest::TEXT.as_bytes(), smallest::TEXT),
    ];
    check_answers(&rt, rt.alloc(), &rows)
}

/// What stands before a name of 65 bytes, the first of them, and behind it, and the answer.
const AROUND_A_LONG_NAME: [(&[u8], &[u8], &str); 4] = [
    (b"n", b"\n", "1:1: refusal 3: NameTooLong"),
    (
        b"proc main\nx = n",
        b"\nend\n",
        "2:5: refusal 3: NameTooLong",
    ),
    (
        b"proc main\nend\nproc n",
        b"\nend\n",
        "3:6: refusal 3: NameTooLong",
    ),
    (
        b"proc main\nn",
        b" = 1\nend\n",
        "2:1: refusal 3: NameTooLong",
    ),
];

/// A program with names of 64 bytes.
fn longest_names(alloc: Global) -> Result<String, OutOfMemory> {
    format!(in alloc; "proc main\n{NAME_64}:\n  {NAME_64} = 1\nend\nproc {NAME_64}\nend\n")
}

fn check_longest_names(rt: &impl Abort, alloc: Global) -> Result<(), OutOfMemory> {
    check_listing(rt, alloc, longest_names(alloc)?.as_str())
}

#[test]
fn refuses_long_names(rt: HostRuntime) -> Result<(), OutOfMemory> {
    let middles = [("long names", NAME_64.as_bytes())];
    check_around(&rt, rt.alloc(), &AROUND_A_LONG_NAME, &middles)?;
    check_longest_names(&rt, rt.alloc())
}

/// The procedure `main`, and this many others.
fn procedures(alloc: Global, others: u32) -> Result<String, OutOfMemory> {
    let mut text = format!(in alloc; "proc main\nend\n")?;
    for p in 0..others {
        write!(text, "proc p{p}\nend\n")?;
    }
    Ok(text)
}

/// The answer of this many procedures beside `main`.
fn answer_of_procedures(alloc: Global, others: u32) -> Result<String, OutOfMemory> {
    answer(alloc, procedures(alloc, others)?.as_bytes())
}

/// The procedure `main`, and this many line feeds.
fn lines_behind(alloc: Global, lines: u32) -> Result<String, OutOfMemory> {
    let mut text = procedures(alloc, 0)?;
    for _ in 0..lines {
        text.push('\n')?;
    }
    Ok(text)
}

/// The procedure `main` and this many line feeds have this answer.
fn check_lines(rt: &impl Abort, alloc: Global, lines: u32, want: &str) -> Result<(), OutOfMemory> {
    let text = lines_behind(alloc, lines)?;
    same(
        rt,
        "lines",
        lines as usize,
        answer(alloc, text.as_bytes())?.as_str(),
        want,
    );
    Ok(())
}

#[test]
fn counts_procedures_and_bytes(rt: HostRuntime) -> Result<(), OutOfMemory> {
    let alloc = rt.alloc();
    check_listing(&rt, alloc, procedures(alloc, 255)?.as_str())?;
    let over = answer_of_procedures(alloc, 256)?;
    same(
        &rt,
        "procedures",
        256,
        over.as_str(),
        "513:6: refusal 12: TooManyProcedures",
    );
    check_lines(&rt, alloc, 1_048_562, "proc main\nend\n")?;
    check_lines(&rt, alloc, 1_048_563, "1:1: refusal 11: TextTooLong")
}

/// Within the large limits the text has this answer.
fn check_within_large(
    rt: &impl Abort,
    alloc: Global,
    text: &[u8],
    want: &str,
) -> Result<(), OutOfMemory> {
    let answer = text_of(alloc, listed_within_large(alloc, text))?;
    same(rt, "large limits", text.len(), answer.as_str(), want);
    Ok(())
}

/// The procedure `main` and this many others are the listing of their own program within the large limits.
fn check_procedures_within_large(
    rt: &impl Abort,
    alloc: Global,
    others: u32,
) -> Result<(), OutOfMemory> {
    let text = procedures(alloc, others)?;
    check_within_large(rt, alloc, text.as_bytes(), text.as_str())
}

#[test]
fn counts_procedures_within_large_limits(rt: HostRuntime) -> Result<(), OutOfMemory> {
    let alloc = rt.alloc();
    check_procedures_within_large(&rt, alloc, 256)?;
    check_procedures_within_large(&rt, alloc, 262_143)?;
    // Each procedure is two lines.
    let over = procedures(alloc, 262_144)?;
    check_within_large(
        &rt,
        alloc,
        over.as_bytes(),
        "524289:6: refusal 12: TooManyProcedures",
    )
}

/// This many blanks.
fn blanks(alloc: Global, count: usize) -> Result<Vec<u8>, OutOfMemory> {
    vec![in alloc; b' '; count]
}

/// Within the large limits this many blanks have this answer.
fn check_blanks(
    rt: &impl Abort,
    alloc: Global,
    count: usize,
    want: &str,
) -> Result<(), OutOfMemory> {
    check_within_large(rt, alloc, blanks(alloc, count)?.as_slice(), want)
}

#[test]
fn counts_bytes_within_large_limits(rt: HostRuntime) -> Result<(), OutOfMemory> {
    let alloc = rt.alloc();
    let lines = lines_behind(alloc, 1_048_563)?;
    check_within_large(&rt, alloc, lines.as_bytes(), "proc main\nend\n")?;
    check_blanks(&rt, alloc, 536_870_913, "1:1: refusal 11: TextTooLong")
}

const LISTED: &[(&[u8], &str)] = &[
    (FORMS, FORMS_LISTING),
    (
        b"proc main # \0 \r \xff\nend#\0\r\xff\n",
        "proc main\nend\n",
    ),
    (
        b"proc main # \xc3\xa9\xff\x80\nx = 1 #\xe2\x82\xac\n#\xfe\nend\n",
        "proc main\n  x = 1\nend\n",
    ),
];

#[test]
fn lists(rt: HostRuntime) -> Result<(), OutOfMemory> {
    check_answers(&rt, rt.alloc(), LISTED)?;
    check_answers(&rt, rt.alloc(), listed::LAYOUTS)
}

/// Whether the text is the listing of its own program.
fn is_listing(alloc: Global, text: &[u8]) -> Result<bool, OutOfMemory> {
    match listed(alloc, text) {
        Ok(again) => Ok(again.as_slice() == text),
        Err(ReadFault::OutOfMemory) => Err(OutOfMemory),
        Err(ReadFault::Refused(_)) => Ok(false),
    }
}

/// Whether a text that is a program lists to a text that lists to itself.
fn lists_to_itself(alloc: Global, text: &[u8]) -> Result<bool, OutOfMemory> {
    match listed(alloc, text) {
        Ok(first) => is_listing(alloc, first.as_slice()),
        Err(ReadFault::OutOfMemory) => Err(OutOfMemory),
        Err(ReadFault::Refused(_)) => Ok(true),
    }
}

#[test]
fn reads_its_own_listings(rt: HostRuntime) -> Result<(), OutOfMemory> {
    let alloc = rt.alloc();
    for text in [FORMS, recursion::TEXT.as_bytes(), SPACING] {
        for stop in 0..text.len() + 1 {
            assert!(rt;
                lists_to_itself(alloc, &text[..stop.min(text.len())])?,
                "the first {stop} bytes"
            );
        }
    }
    Ok(())
}

fn same_name(rt: &impl Abort, name: &[u8], want: &str) {
    assert_eq!(rt; name, want.as_bytes(), "{want}");
}

fn check_names(rt: &impl Abort, program: &Program)
    requires { program.now ≡ program_of SPACING.now }
{
    assert_eq!(rt; program.main(), 0);
    same_name(rt, program.procedure(0), "main");
    same_name(rt, program.variable(0), "x");
    same_name(rt, program.variable(2), "z");
    same_name(rt, program.label(0, 1), "M");
}

#[test]
fn names_by_number(rt: HostRuntime) -> Result<(), ReadFault> {
    match read(rt.alloc(), SPACING) {
        Ok(program) => check_names(&rt, &program),
        Err(fault) => return Err(fault),
    }
    Ok(())
}

fn check_labels(rt: &impl Abort, labels: &[Label]) {
    for (place, label) in labels.iter().enumerate() {
        assert_eq!(rt; (label.name as usize, label.place), (place, 0));
    }
}

const SPANS: [Span; 3] = [
    Span {
        line: 2,
        start: 23,
        end: 30,
    },
    Span {
        line: 3,
        start: 31,
        end: 36,
    },
    Span {
        line: 4,
        start: 37,
        end: 50,
    },
];

fn check_spans(rt: &impl Abort, stmts: &[Stmt]) {
    assert_eq!(rt; stmts.len(), SPANS.len());
    for (place, want) in SPANS.iter().enumerate() {
        assert_eq!(rt; stmts[place].span, *want);
    }
}

fn check_procedures(rt: &impl Abort, program: &Program) {
    assert_eq!(rt; program.variables(), 3);
    for proc in program.procs() {
        assert_eq!(rt; proc.name(), 0);
        check_labels(rt, proc.labels());
        check_spans(rt, proc.stmts());
    }
}

#[test]
fn numbers_and_spans(rt: HostRuntime) -> Result<(), ReadFault> {
    match read(rt.alloc(), SPACING) {
        Ok(program) => check_procedures(&rt, &program),
        Err(fault) => return Err(fault),
    }
    Ok(())
}

/// A program of these labels on one line, and this one behind them.
fn labelled(alloc: Global, labels: &[u8], last: &[u8]) -> Result<Vec<u8>, OutOfMemory> {
    let mut text = Vec::new(alloc);
    text.extend_from_slice(b"proc main\n")?;
    text.extend_from_slice(labels)?;
    text.extend_from_slice(last)?;
    text.extend_from_slice(b"\nend\n")?;
    Ok(text)
}

/// The answer of the labels that fall together, and this one behind them.
fn answer_of_labelled(alloc: Global, last: &[u8]) -> Result<String, OutOfMemory> {
    answer(alloc, labelled(alloc, FALLING_TOGETHER, last)?.as_slice())
}

#[test]
fn names_that_fall_together(rt: HostRuntime) -> Result<(), OutOfMemory> {
    let listed = answer_of_labelled(rt.alloc(), b"")?;
    // 270 labels of five bytes, each on a line of its own, between `proc main` and `end`.
    assert_eq!(rt; listed.len(), 10 + 270 * 7 + 4);
    check_listing(&rt, rt.alloc(), listed.as_str())
}

#[test]
fn a_name_twice_among_them(rt: HostRuntime) -> Result<(), OutOfMemory> {
    let answer = answer_of_labelled(rt.alloc(), b"aaclN:")?;
    same(
        &rt,
        "a name twice",
        0,
        answer.as_str(),
        "2:1621: refusal 8: DuplicateLabel",
    );
    Ok(())
}
