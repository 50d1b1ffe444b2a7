// The faults of names: each check answers by the first fault of its kind, or goes through.
//
// A check that fails with `Stop::Fault` tells that fault; one that lacks memory fails with
// `Stop::OutOfMemory`.

ghost use Rattle.std.specs.Prelude.{◌≡◌, ◌++◌, ℕ, List, [], ◌∷◌, Some, map, flat_map, drop, codes, if◌then◌else◌, IfOk, IfErr, OnOk};
ghost use Rattle.tac_reader.specs.Faults.{callees_in, head_of, jumps_in, repeated, unknown};
ghost use Rattle.tac_lines.specs.LineFaults.{at};
ghost use Rattle.tac_program.specs.Limits.{most_procedures};
ghost use Rattle.tac_lines.specs.code.Lexed.{IfFault};
ghost use Rattle.tac_reader.specs.Parses.{names_in};
ghost use Rattle.tac_reader.specs.code.SectionViews.{section_view, sections_view};
ghost use Rattle.tac_reader.specs.Sections.{labels_in, statements_of, titles as titles_of};
ghost use Rattle.tac_lines.specs.Forms.{callees_of};
ghost use Rattle.tac_lines.specs.Tokens.{Token as Word};
ghost use Rattle.tac_program.specs.Names.{is_one_of};
ghost use Rattle.tac_lines.specs.code.Views.{tokens_view};
ghost use Rattle.tac_lines.specs.declared.refusal.RefusalKind.TheVariants.{DuplicateCallee, DuplicateLabel, DuplicateProcedure, NoMain};
ghost use Rattle.tac_lines.specs.declared.refusal.RefusalKind.TheVariants.{TooManyProcedures, UnknownLabel, UnknownProcedure};

use crate::OutOfMemory;
use crate::section::{Section, labels, line_cells, section_cells};
use std::alloc::Global;
use tac_lines::{Fault, RefusalKind, Role, Stop, Token};
use tac_program::{Limits, NameSeeds, NameTable};

/// Puts the tokens' names last in the table, where each is new there. Fails with the fault of the first
/// that is not, at its token; the table then has the names before it too.
pub fn note_names(
    alloc: Global,
    seeds: &mut NameSeeds<'_>,
    kind: RefusalKind,
    names: &mut NameTable,
    text: &[u8],
    tokens: &[Token],
) -> Result<(), Stop>
    ensures faultless { OnOk result (repeated kind names.old (tokens_view text.now tokens.now) ≡ []) }
    ensures names { OnOk result (names.new ≡ names.old ++ names_in (tokens_view text.now tokens.now)) }
    ensures fault { IfErr result (IfFault (λ f. head_of (repeated kind names.old (tokens_view text.now tokens.now)) ≡ Some f)) }
{
    for token in tokens {
        let (_, is_new) = names.insert_full(alloc, seeds, token.spelling(text))?;
        if !is_new {
            return Err(Stop::Fault(Fault {
                kind,
                place: token.start,
            }));
        }
    }
    Ok(())
}

/// The fault of the first token whose name is not in the table, at that token.
pub fn first_unknown(
    kind: RefusalKind,
    text: &[u8],
    names: &NameTable,
    tokens: &[Token],
) -> Option<Fault>
    ensures { (known : List Word) → names.now ≡ names_in known → result ≡ head_of (unknown kind known (tokens_view text.now tokens.now)) }
{
    for token in tokens {
        if names.find(token.spelling(text)).is_none() {
            return Some(Fault {
                kind,
                place: token.start,
            });
        }
    }
    None
}

/// Whether a token among these has that name.
fn has_name(text: &[u8], tokens: &[Token], name: &[u8]) -> bool
    ensures { is_one_of name.now (names_in (tokens_view text.now tokens.now)) ≡ result }
{
    for token in tokens {
        if name == token.spelling(text) {
            return true;
        }
    }
    false
}

/// The fault of the first token whose name stands before it. Each is compared with all before, so it
/// is for few tokens.
fn first_repeated(kind: RefusalKind, text: &[u8], tokens: &[Token]) -> Option<Fault>
    ensures { result ≡ head_of (repeated kind [] (tokens_view text.now tokens.now)) }
{
    for at in 0..tokens.len() {
        if has_name(text, &tokens[..at], tokens[at].spelling(text)) {
            return Some(Fault {
                kind,
                place: tokens[at].start,
            });
        }
    }
    None
}

/// The procedures' names.
fn titles(alloc: Global, sections: &[Section<'_>]) -> Result<Vec<Token>, OutOfMemory>
    ensures { IfOk result (λ found. (text : List ℕ) → tokens_view text found.items ≡ titles_of (sections_view text sections.now)) }
{
    let mut found = Vec::with_capacity(alloc, sections.len())?;
    for section in sections {
        found.push(section.title)?;
    }
    Ok(found)
}

/// The procedures' names in text order, where no two have one name. Fails with `DuplicateProcedure` at
/// the first name that stands before.
pub fn check_procedures(
    alloc: Global,
    seeds: &mut NameSeeds<'_>,
    text: &[u8],
    sections: &[Section<'_>],
) -> Result<NameTable, Stop>
    ensures faultless { OnOk result (repeated DuplicateProcedure [] (titles_of (sections_view text.now sections.now)) ≡ []) }
    ensures names { IfOk result (λ names. names ≡ names_in (titles_of (sections_view text.now sections.now))) }
    ensures fault { IfErr result
        (IfFault (λ f. head_of (repeated DuplicateProcedure [] (titles_of (sections_view text.now sections.now))) ≡ Some f)) }
{
    let mut names = NameTable::new(alloc);
    note_names(
        alloc,
        seeds,
        RefusalKind::DuplicateProcedure,
        &mut names,
        text,
        &titles(alloc, sections)?,
    )?;
    Ok(names)
}

/// The names of a procedure's labels, where no two have one name; `found` is a buffer.
fn section_labels(
    alloc: Global,
    seeds: &mut NameSeeds<'_>,
    found: &mut Vec<Token>,
    text: &[u8],
    section: &Section<'_>,
) -> Result<NameTable, Stop>
    ensures faultless { OnOk result (repeated DuplicateLabel [] (labels_in (section_view text.now section.now)) ≡ []) }
    ensures names { IfOk result (λ names. names ≡ names_in (labels_in (section_view text.now section.now))) }
    ensures fault { IfErr result (IfFault (λ f. head_of (repeated DuplicateLabel [] (labels_in (section_view text.now section.now))) ≡ Some f)) }
{
    found.clear();
    labels(found, section.lines)?;
    let mut names = NameTable::new(alloc);
    note_names(
        alloc,
        seeds,
        RefusalKind::DuplicateLabel,
        &mut names,
        text,
        found,
    )?;
    Ok(names)
}

/// Puts a table last.
fn push_table(tables: &mut Vec<NameTable>, names: NameTable) -> Result<(), OutOfMemory>
    ensures { OnOk result (tables.new.items ≡ tables.old.items ++ names ∷ []) }
{
    tables.push(names)?;
    Ok(())
}

/// The names of each procedure's labels in text order, where no procedure has two labels of one name.
/// Fails with `DuplicateLabel` at the first label that stands before in its procedure.
pub fn check_labels(
    alloc: Global,
    seeds: &mut NameSeeds<'_>,
    text: &[u8],
    sections: &[Section<'_>],
) -> Result<Vec<NameTable>, Stop>
    ensures faultless { OnOk result (flat_map (λ s. repeated DuplicateLabel [] (labels_in s)) (sections_view text.now sections.now) ≡ []) }
    ensures names { IfOk result (λ tables. tables.items ≡ map (λ s. names_in (labels_in s)) (sections_view text.now sections.now)) }
    ensures fault { IfErr result
        (IfFault (λ f. head_of (flat_map (λ s. repeated DuplicateLabel [] (labels_in s)) (sections_view text.now sections.now)) ≡ Some f)) }
{
    let mut tables = Vec::with_capacity(alloc, sections.len())?;
    let mut found = Vec::new(alloc);
    for section in sections {
        push_table(
            &mut tables,
            section_labels(alloc, seeds, &mut found, text, section)?,
        )?;
    }
    Ok(tables)
}

/// The fault of a procedure's first jump to a label that it lacks; `found` is a buffer.
fn unknown_jump(
    found: &mut Vec<Token>,
    text: &[u8],
    section: &Section<'_>,
    labels: &NameTable,
) -> Result<Option<Fault>, OutOfMemory>
    requires { labels.now ≡ names_in (labels_in (section_view text.now section.now)) }
    ensures { IfOk result (λ fault.
        fault ≡ head_of (unknown UnknownLabel (labels_in (section_view text.now section.now)) (jumps_in (section_view text.now section.now)))) }
{
    found.clear();
    section_cells(found, Role::Label, section.lines)?;
    Ok(first_unknown(RefusalKind::UnknownLabel, text, labels, found))
}

/// Checks that each jump is to a label of its own procedure; `labels` are each procedure's, in order.
/// Fails with `UnknownLabel` at the label of the first jump that is not.
pub fn check_jumps(
    alloc: Global,
    text: &[u8],
    sections: &[Section<'_>],
    labels: &[NameTable],
) -> Result<(), Stop>
    requires { labels.now ≡ map (λ s. names_in (labels_in s)) (sections_view text.now sections.now) }
    ensures faultless { OnOk result (flat_map (λ s. unknown UnknownLabel (labels_in s) (jumps_in s)) (sections_view text.now sections.now) ≡ []) }
    ensures fault { IfErr result
        (IfFault (λ f. head_of (flat_map (λ s. unknown UnknownLabel (labels_in s) (jumps_in s)) (sections_view text.now sections.now)) ≡ Some f)) }
{
    let mut found = Vec::new(alloc);
    for at in 0..sections.len() {
        if let Some(fault) = unknown_jump(&mut found, text, &sections[at], &labels[at])? {
            return Err(Stop::Fault(fault));
        }
    }
    Ok(())
}

/// The fault of a procedure's first callee that is no procedure; `found` is a buffer.
fn unknown_callee(
    found: &mut Vec<Token>,
    text: &[u8],
    section: &Section<'_>,
    procedures: &NameTable,
) -> Result<Option<Fault>, OutOfMemory>
    ensures { (known : List Word) → procedures.now ≡ names_in known
        → IfOk result (λ fault. fault ≡ head_of (unknown UnknownProcedure known (callees_in (section_view text.now section.now)))) }
{
    found.clear();
    section_cells(found, Role::Callee, section.lines)?;
    Ok(first_unknown(RefusalKind::UnknownProcedure, text, procedures, found))
}

/// Checks that each callee is a procedure; `procedures` are their names. Fails with `UnknownProcedure`
/// at the first that is none.
pub fn check_callees(
    alloc: Global,
    text: &[u8],
    sections: &[Section<'_>],
    procedures: &NameTable,
) -> Result<(), Stop>
    requires { procedures.now ≡ names_in (titles_of (sections_view text.now sections.now)) }
    ensures faultless { OnOk result (flat_map (λ s. unknown UnknownProcedure (titles_of (sections_view text.now sections.now)) (callees_in s))
        (sections_view text.now sections.now) ≡ []) }
    ensures fault { IfErr result (IfFault (λ f. head_of (flat_map (λ s.
        unknown UnknownProcedure (titles_of (sections_view text.now sections.now)) (callees_in s)) (sections_view text.now sections.now)) ≡ Some f)) }
{
    let mut found = Vec::new(alloc);
    for section in sections {
        if let Some(fault) = unknown_callee(&mut found, text, section, procedures)? {
            return Err(Stop::Fault(fault));
        }
    }
    Ok(())
}

/// The fault of a procedure's first callee that stands before in the same call; `found` is a buffer.
fn repeated_callee(
    found: &mut Vec<Token>,
    text: &[u8],
    section: &Section<'_>,
) -> Result<Option<Fault>, OutOfMemory>
    ensures { IfOk result (λ fault.
        fault ≡ head_of (flat_map (λ c. repeated DuplicateCallee [] (callees_of c)) (statements_of (section_view text.now section.now).body))) }
{
    let lines = section.lines;
    for at in 0..lines.len() {
        found.clear();
        line_cells(found, Role::Callee, lines, at)?;
        if let Some(fault) = first_repeated(RefusalKind::DuplicateCallee, text, found) {
            return Ok(Some(fault));
        }
    }
    Ok(None)
}

/// Checks that no call lists a procedure twice. Fails with `DuplicateCallee` at the first callee that
/// stands before in its call.
pub fn check_repeated_callees(
    alloc: Global,
    text: &[u8],
    sections: &[Section<'_>],
) -> Result<(), Stop>
    ensures faultless { OnOk result (flat_map (λ s. flat_map (λ c. repeated DuplicateCallee [] (callees_of c)) (statements_of s.body))
        (sections_view text.now sections.now) ≡ []) }
    ensures fault { IfErr result (IfFault (λ f. head_of (flat_map (λ s.
        flat_map (λ c. repeated DuplicateCallee [] (callees_of c)) (statements_of s.body)) (sections_view text.now sections.now)) ≡ Some f)) }
{
    let mut found = Vec::new(alloc);
    for section in sections {
        if let Some(fault) = repeated_callee(&mut found, text, section)? {
            return Err(Stop::Fault(fault));
        }
    }
    Ok(())
}

/// The fault `NoMain`, at the text's first byte, where no procedure is called `main`.
pub fn check_main(procedures: &NameTable) -> Option<Fault>
    ensures { result ≡ head_of (if is_one_of (codes "main") procedures.now then [] else at NoMain 0) }
{
    match procedures.find(b"main") {
        Some(_) => None,
        None => Some(Fault {
            kind: RefusalKind::NoMain,
            place: 0,
        }),
    }
}

/// The fault `TooManyProcedures` at the name of the first procedure beyond those that the limits allow,
/// where there is one.
pub fn check_count(sections: &[Section<'_>], limits: Limits) -> Option<Fault>
    ensures { (text : List ℕ) → result
        ≡ head_of (flat_map (λ t. at TooManyProcedures t.start) (drop (most_procedures limits) (titles_of (sections_view text sections.now)))) }
{
    let most = limits.procedures() as usize;
    if sections.len() <= most {
        return None;
    }
    Some(Fault {
        kind: RefusalKind::TooManyProcedures,
        place: sections[most].title.start,
    })
}
