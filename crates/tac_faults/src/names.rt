// The faults of names, in the order in which the reader looks for them.

ghost use Rattle.std.specs.Prelude.{◌≡◌, ◌++◌, ℕ, List, [], take, flat_map, drop, codes, if◌then◌else◌, IfOk, OnOk};
ghost use Rattle.tac_faults.specs.Listed.{most_found};
ghost use Rattle.tac_lines.specs.Forms.{callees_of};
ghost use Rattle.tac_lines.specs.LineFaults.{at};
ghost use Rattle.tac_lines.specs.Tokens.{Token as Word};
ghost use Rattle.tac_lines.specs.code.Views.{tokens_view};
ghost use Rattle.tac_lines.specs.declared.refusal.RefusalKind.TheVariants.{DuplicateCallee, DuplicateLabel, NoMain};
ghost use Rattle.tac_lines.specs.declared.refusal.RefusalKind.TheVariants.{TooManyProcedures, UnknownLabel, UnknownProcedure};
ghost use Rattle.tac_program.specs.Limits.{most_procedures};
ghost use Rattle.tac_program.specs.Names.{is_one_of};
ghost use Rattle.tac_reader.specs.Faults.{callees_in, jumps_in, name_faults as faults_of_names, repeated, unknown};
ghost use Rattle.tac_reader.specs.Parses.{each_once, names_in};
ghost use Rattle.tac_reader.specs.Sections.{labels_in, statements_of, titles as titles_of};
ghost use Rattle.tac_reader.specs.code.SectionViews.{section_view, sections_view};

use crate::told::tell;
use std::alloc::Global;
use tac_lines::{Fault, OutOfMemory, RefusalKind, Role, Token};
use tac_program::{Limits, NameSeeds, NameTable};
use tac_reader::section::{Section, labels, line_cells, section_cells};

/// The tokens' names, each once.
fn name_table(
    alloc: Global,
    seeds: &mut NameSeeds<'_>,
    text: &[u8],
    tokens: &[Token],
) -> Result<NameTable, OutOfMemory>
    ensures { IfOk result (λ names. names ≡ each_once (names_in (tokens_view text.now tokens.now))) }
{
    let mut names = NameTable::new(alloc);
    for token in tokens {
        let _ = names.insert_full(alloc, seeds, token.spelling(text))?;
    }
    Ok(names)
}

/// Tells of each token whose name stands before it.
fn tell_repeated(
    alloc: Global,
    seeds: &mut NameSeeds<'_>,
    found: &mut Vec<Fault>,
    kind: RefusalKind,
    text: &[u8],
    tokens: &[Token],
) -> Result<(), OutOfMemory>
    ensures { OnOk result
        (take most_found found.new.items ≡ take most_found (found.old.items ++ repeated kind [] (tokens_view text.now tokens.now))) }
{
    let mut names = NameTable::new(alloc);
    for token in tokens {
        let (_, is_new) = names.insert_full(alloc, seeds, token.spelling(text))?;
        tell(found, !is_new, kind, token.start)?;
    }
    Ok(())
}

/// Tells of each token whose name is not in the table.
fn tell_unknown(
    found: &mut Vec<Fault>,
    kind: RefusalKind,
    text: &[u8],
    names: &NameTable,
    tokens: &[Token],
) -> Result<(), OutOfMemory>
    ensures { (known : List Word) → names.now ≡ each_once (names_in known) → OnOk result
        (take most_found found.new.items ≡ take most_found (found.old.items ++ unknown kind known (tokens_view text.now tokens.now))) }
{
    for token in tokens {
        let is_unknown = names.find(token.spelling(text)).is_none();
        tell(found, is_unknown, kind, token.start)?;
    }
    Ok(())
}

/// The procedures' names.
pub fn titles(alloc: Global, sections: &[Section<'_>]) -> Result<Vec<Token>, OutOfMemory>
    ensures { IfOk result (λ found. (text : List ℕ) → tokens_view text found.items ≡ titles_of (sections_view text sections.now)) }
{
    let mut found = Vec::with_capacity(alloc, sections.len())?;
    for section in sections {
        found.push(section.title)?;
    }
    Ok(found)
}

/// Tells of the labels that a procedure has already. What the buffer holds is lost.
fn tell_section_labels(
    alloc: Global,
    seeds: &mut NameSeeds<'_>,
    found: &mut Vec<Fault>,
    buffer: &mut Vec<Token>,
    text: &[u8],
    section: &Section<'_>,
) -> Result<(), OutOfMemory>
    ensures { OnOk result (take most_found found.new.items ≡ take most_found
        (found.old.items ++ repeated DuplicateLabel [] (labels_in (section_view text.now section.now)))) }
{
    buffer.clear();
    labels(buffer, section.lines)?;
    tell_repeated(
        alloc,
        seeds,
        found,
        RefusalKind::DuplicateLabel,
        text,
        buffer,
    )
}

/// Tells of the labels that their procedure has already.
fn tell_labels(
    alloc: Global,
    seeds: &mut NameSeeds<'_>,
    found: &mut Vec<Fault>,
    text: &[u8],
    sections: &[Section<'_>],
) -> Result<(), OutOfMemory>
    ensures { OnOk result (take most_found found.new.items ≡ take most_found
        (found.old.items ++ flat_map (λ s. repeated DuplicateLabel [] (labels_in s)) (sections_view text.now sections.now))) }
{
    let mut buffer = Vec::new(alloc);
    for section in sections {
        tell_section_labels(alloc, seeds, found, &mut buffer, text, section)?;
    }
    Ok(())
}

/// The names of a procedure's labels. What the buffer holds is lost.
fn label_names(
    alloc: Global,
    seeds: &mut NameSeeds<'_>,
    buffer: &mut Vec<Token>,
    text: &[u8],
    section: &Section<'_>,
) -> Result<NameTable, OutOfMemory>
    ensures { IfOk result (λ names. names ≡ each_once (names_in (labels_in (section_view text.now section.now)))) }
{
    buffer.clear();
    labels(buffer, section.lines)?;
    name_table(alloc, seeds, text, buffer)
}

/// Tells of a procedure's jumps to a label that it lacks. What the buffer holds is lost.
fn tell_section_jumps(
    alloc: Global,
    seeds: &mut NameSeeds<'_>,
    found: &mut Vec<Fault>,
    buffer: &mut Vec<Token>,
    text: &[u8],
    section: &Section<'_>,
) -> Result<(), OutOfMemory>
    ensures { OnOk result (take most_found found.new.items ≡ take most_found (found.old.items
        ++ unknown UnknownLabel (labels_in (section_view text.now section.now)) (jumps_in (section_view text.now section.now)))) }
{
    let names = label_names(alloc, seeds, buffer, text, section)?;
    buffer.clear();
    section_cells(buffer, Role::Label, section.lines)?;
    tell_unknown(found, RefusalKind::UnknownLabel, text, &names, buffer)
}

/// Tells of the jumps to a label that their procedure lacks.
fn tell_jumps(
    alloc: Global,
    seeds: &mut NameSeeds<'_>,
    found: &mut Vec<Fault>,
    text: &[u8],
    sections: &[Section<'_>],
) -> Result<(), OutOfMemory>
    ensures { OnOk result (take most_found found.new.items ≡ take most_found
        (found.old.items ++ flat_map (λ s. unknown UnknownLabel (labels_in s) (jumps_in s)) (sections_view text.now sections.now))) }
{
    let mut buffer = Vec::new(alloc);
    for section in sections {
        tell_section_jumps(alloc, seeds, found, &mut buffer, text, section)?;
    }
    Ok(())
}

/// Tells of a procedure's callees that are no procedure. What the buffer holds is lost.
fn tell_section_callees(
    found: &mut Vec<Fault>,
    buffer: &mut Vec<Token>,
    text: &[u8],
    section: &Section<'_>,
    procedures: &NameTable,
) -> Result<(), OutOfMemory>
    ensures { (known : List Word) → procedures.now ≡ each_once (names_in known) → OnOk result (take most_found found.new.items
        ≡ take most_found (found.old.items ++ unknown UnknownProcedure known (callees_in (section_view text.now section.now)))) }
{
    buffer.clear();
    section_cells(buffer, Role::Callee, section.lines)?;
    tell_unknown(
        found,
        RefusalKind::UnknownProcedure,
        text,
        procedures,
        buffer,
    )
}

/// Tells of the callees that are no procedure.
fn tell_callees(
    alloc: Global,
    found: &mut Vec<Fault>,
    text: &[u8],
    sections: &[Section<'_>],
    procedures: &NameTable,
) -> Result<(), OutOfMemory>
    ensures { (known : List Word) → procedures.now ≡ each_once (names_in known) → OnOk result (take most_found found.new.items
        ≡ take most_found (found.old.items ++ flat_map (λ s. unknown UnknownProcedure known (callees_in s)) (sections_view text.now sections.now))) }
{
    let mut buffer = Vec::new(alloc);
    for section in sections {
        tell_section_callees(found, &mut buffer, text, section, procedures)?;
    }
    Ok(())
}

/// Tells of a procedure's callees that stand before in the same call. What the buffer holds is lost.
fn tell_section_calls(
    alloc: Global,
    seeds: &mut NameSeeds<'_>,
    found: &mut Vec<Fault>,
    buffer: &mut Vec<Token>,
    text: &[u8],
    section: &Section<'_>,
) -> Result<(), OutOfMemory>
    ensures { OnOk result (take most_found found.new.items ≡ take most_found (found.old.items
        ++ flat_map (λ c. repeated DuplicateCallee [] (callees_of c)) (statements_of (section_view text.now section.now).body))) }
{
    let lines = section.lines;
    for at in 0..lines.len() {
        buffer.clear();
        line_cells(buffer, Role::Callee, lines, at)?;
        tell_repeated(
            alloc,
            seeds,
            found,
            RefusalKind::DuplicateCallee,
            text,
            buffer,
        )?;
    }
    Ok(())
}

/// Tells of the callees that stand before in the same call.
fn tell_calls(
    alloc: Global,
    seeds: &mut NameSeeds<'_>,
    found: &mut Vec<Fault>,
    text: &[u8],
    sections: &[Section<'_>],
) -> Result<(), OutOfMemory>
    ensures { OnOk result (take most_found found.new.items ≡ take most_found (found.old.items
        ++ flat_map (λ s. flat_map (λ c. repeated DuplicateCallee [] (callees_of c)) (statements_of s.body)) (sections_view text.now sections.now))) }
{
    let mut buffer = Vec::new(alloc);
    for section in sections {
        tell_section_calls(alloc, seeds, found, &mut buffer, text, section)?;
    }
    Ok(())
}

/// Tells of the procedures that are more than the limits allow.
fn tell_many(found: &mut Vec<Fault>, limits: Limits, titles: &[Token]) -> Result<(), OutOfMemory>
    ensures { (text : List ℕ) → OnOk result (take most_found found.new.items ≡ take most_found
        (found.old.items ++ flat_map (λ t. at TooManyProcedures t.start) (drop (most_procedures limits) (tokens_view text titles.now)))) }
{
    let most = titles.len().min(limits.procedures() as usize);
    for title in &titles[most..] {
        tell(found, true, RefusalKind::TooManyProcedures, title.start)?;
    }
    Ok(())
}

/// Tells that no procedure is called `main`, where that is so.
fn tell_no_main(found: &mut Vec<Fault>, procedures: &NameTable) -> Result<(), OutOfMemory>
    ensures { (known : List Word) → procedures.now ≡ each_once (names_in known) → OnOk result (take most_found found.new.items
        ≡ take most_found (found.old.items ++ (if is_one_of (codes "main") (names_in known) then [] else at NoMain 0))) }
{
    let is_missing = procedures.find(b"main").is_none();
    tell(found, is_missing, RefusalKind::NoMain, 0)
}

/// The faults of names, in the order in which the reader looks for them, at least as many as are looked for.
pub fn name_faults(
    alloc: Global,
    text: &[u8],
    sections: &[Section<'_>],
    limits: Limits,
) -> Result<Vec<Fault>, OutOfMemory>
    ensures { IfOk result (λ found. take most_found found.items ≡ take most_found (faults_of_names limits (sections_view text.now sections.now))) }
{
    let mut seeds = NameSeeds::of(text);
    let mut found = Vec::new(alloc);
    let titles = titles(alloc, sections)?;
    let procedures = name_table(alloc, &mut seeds, text, &titles)?;
    tell_repeated(
        alloc,
        &mut seeds,
        &mut found,
        RefusalKind::DuplicateProcedure,
        text,
        &titles,
    )?;
    tell_labels(alloc, &mut seeds, &mut found, text, sections)?;
    tell_jumps(alloc, &mut seeds, &mut found, text, sections)?;
    tell_callees(alloc, &mut found, text, sections, &procedures)?;
    tell_calls(alloc, &mut seeds, &mut found, text, sections)?;
    tell_no_main(&mut found, &procedures)?;
    tell_many(&mut found, limits, &titles)?;
    Ok(found)
}
