// From the bytes of a file to what is told of it.

ghost use Rattle.std.specs.Prelude.{◌≡◌, ◌<◌, ◌+◌, ◌-◌, ◌^◌, true, false, Some, IfErr, IfOk, MatchOption, OnOk, option_map};
ghost use Rattle.std.specs.Io.KnownBytes.{Keeps};
ghost use Rattle.flow_lints.specs.Lints.{IsLinted};
ghost use Rattle.report_answers.specs.code.Reported.{TellReport};
ghost use Rattle.flow_runs.specs.Faults.{Delivers, OfProgram, UnlessWrite, WhereLargeProcedure, WhereNoGraph, WhereNoProcedure, WhereNoRemark};
ghost use Rattle.flow_runs.specs.Faults.{WhereRefused, WhereWrite, read_faults_in, write_faults_in};
ghost use Rattle.flow_runs.specs.Runs.{HasNoGraph, IsOverLimit, Lacking, PullsLacking, PullsOverLimit};
ghost use Rattle.lint_commands.specs.Runs.{DeliversBy, HasErrors, HasProcedure, IsTextOf, LacksProcedure, Lints, LintsWithin, ShowsProcedure};
ghost use Rattle.lint_commands.specs.Runs.{Tells, errors_text};
ghost use Rattle.lint_commands.specs.Runs.{WritesBeginning, WritesTold, name_asked, told_by as told_of_remarks, wanted_of};
ghost use Rattle.lint_json.specs.LintJson.{IsLintJson};
ghost use Rattle.lint_json.specs.RefusalJson.{refusal_json_of};
ghost use Rattle.lint_texts.specs.LintTexts.{IsLintText, file_text};

use crate::OutOfMemory;
use crate::options::Form;
use crate::told::Told;
use flow_graph::Graph;
use flow_lints::{Linted, linted};
use flow_runs::{Fault, graph_of, pull_text, push_text};
use flow_team::{Gate, Team};
use lint_json::{lint_json, refusal_json};
use lint_texts::{File, Kinds, LintText, Style, Telling};
use refusal_texts::{RefusalText, ToldRefusal, told_refusals};
use report_answers::ReportAnswers;
use std::alloc::Global;
use std::thread::Threads;
use tac_lines::ReadFault;
use tac_program::{Limits, Program};
use tac_reader::read_within;
use text_pieces::{Bytes, Sink, Source};

// So many bits a worker takes at a time, where several share the work.
const CUT: u32 = 64;

/// What is asked for of each file.
#[derive(Clone, Copy)]
pub struct Request<'a> {
    /// Which kinds of remarks are told.
    pub kinds: Kinds,
    /// The name of the one procedure of which they are told; without it of all.
    pub procedure: Option<&'a [u8]>,
    /// Whether the way is told by which a variable is not set.
    pub why: bool,
    /// In which form they are written.
    pub form: Form,
    /// How they are shown.
    pub style: Style,
}

/// What is asked for of a file.
#[derive(Clone, Copy)]
pub struct Wish<'a> {
    /// How large its text and its program may be.
    pub limits: Limits,
    /// What is told, and how.
    pub request: Request<'a>,
    /// What it is called.
    pub name: &'a [u8],
}

/// Who finds what is told.
#[derive(Drop)]
pub struct Crew<'a, R, G> {
    /// Starts the threads.
    pub threads: &'a R,
    /// Is told of each slice of the work.
    pub gate: &'a G,
    /// How many threads work, 1 to 64. With another number the calling thread works alone.
    pub workers: u32,
}

// What is asked for of a file that was read.
#[derive(Clone, Copy)]
pub(crate) struct Asked<'a> {
    pub limits: Limits,
    pub request: Request<'a>,
    pub file: File<'a>,
}

// A file, and what is told of it.
#[derive(Clone, Copy)]
struct Shown<'a> {
    form: Form,
    file: File<'a>,
    telling: Telling,
}

// The number of the procedure of this name.
fn procedure_named(program: &Program, name: &[u8]) -> Option<u32>
    ensures { MatchOption result (LacksProcedure (Some name.now) program.now) (HasProcedure program.now name.now) }
{
    for number in 0..program.procs().len() as u32 {
        if program.procedure(number) == name {
            return Some(number);
        }
    }
    None
}

// The number of the procedure that is asked for, where one is. None where the program lacks it.
fn procedure_asked(program: &Program, name: Option<&[u8]>) -> Option<Option<u32>>
    ensures { MatchOption result (LacksProcedure (option_map (λ n. n.now) name.entry) program.now)
        (ShowsProcedure program.now (option_map (λ n. n.now) name.entry)) }
{
    match name {
        Some(name) => match procedure_named(program, name) {
            Some(number) => Some(Some(number)),
            None => None,
        },
        None => Some(None),
    }
}

// What is told of a program, by whether it has a remark.
fn told_by(has_remark: bool) -> Told
    ensures { result ≡ told_of_remarks has_remark }
{
    if has_remark {
        Told::Remarks
    } else {
        Told::Nothing
    }
}

// Writes the text of lints. Neither the graph nor the lints are owned here, so that no way out drops them.
fn push_linted<K: Sink>(
    alloc: Global,
    shown: Shown<'_>,
    graph: &Graph<'_>,
    answers: &ReportAnswers,
    told: &Linted,
    sink: &mut K,
) -> Result<(), Fault>
    requires answers { TellReport graph.now answers.now }
    requires linted { IsLinted graph.now told.now }
    requires below { K.faults sink.old < 2 ^ 32 - 1 }
    ensures delivers { Delivers (IsLintText (file_text shown.entry.file) shown.entry.telling graph.now told.now)
        (K.contents sink.old) (K.contents sink.new) result }
    ensures flushed { OnOk result (K.flushed sink.new ≡ true) }
    ensures fault { IfErr result (OfProgram (λ _. ⊥) ⊥ ⊥) }
    ensures faults { K.faults sink.new ≡ K.faults sink.old + write_faults_in result }
{
    let text = LintText::of(alloc, shown.file, shown.telling, graph, answers, told)?;
    push_text(alloc, &text, sink)
}

// Writes the lines of JSON of lints.
fn push_json<K: Sink>(
    alloc: Global,
    shown: Shown<'_>,
    graph: &Graph<'_>,
    answers: &ReportAnswers,
    told: &Linted,
    sink: &mut K,
) -> Result<(), Fault>
    requires answers { TellReport graph.now answers.now }
    requires linted { IsLinted graph.now told.now }
    requires below { K.faults sink.old < 2 ^ 32 - 1 }
    ensures delivers { Delivers (IsLintJson (file_text shown.entry.file) shown.entry.telling graph.now told.now)
        (K.contents sink.old) (K.contents sink.new) result }
    ensures flushed { OnOk result (K.flushed sink.new ≡ true) }
    ensures fault { IfErr result (OfProgram (λ _. ⊥) ⊥ ⊥) }
    ensures faults { K.faults sink.new ≡ K.faults sink.old + write_faults_in result }
{
    let text = lint_json(alloc, shown.file, shown.telling, graph, answers, told)?;
    push_text(alloc, &Bytes(text.as_slice()), sink)
}

// Writes what is told of lints, in the form that is asked for.
fn push_formed<K: Sink>(
    alloc: Global,
    shown: Shown<'_>,
    graph: &Graph<'_>,
    answers: &ReportAnswers,
    told: &Linted,
    sink: &mut K,
) -> Result<(), Fault>
    requires answers { TellReport graph.now answers.now }
    requires linted { IsLinted graph.now told.now }
    requires below { K.faults sink.old < 2 ^ 32 - 1 }
    ensures delivers { Delivers (IsTextOf shown.entry.form (file_text shown.entry.file) shown.entry.telling graph.now told.now)
        (K.contents sink.old) (K.contents sink.new) result }
    ensures flushed { OnOk result (K.flushed sink.new ≡ true) }
    ensures fault { IfErr result (OfProgram (λ _. ⊥) ⊥ ⊥) }
    ensures faults { K.faults sink.new ≡ K.faults sink.old + write_faults_in result }
{
    match shown.form {
        Form::Text => push_linted(alloc, shown, graph, answers, told, sink),
        Form::Json => push_json(alloc, shown, graph, answers, told, sink),
    }
}

// Writes the text of a graph's lints out of answers.
fn push_answers<K: Sink>(
    alloc: Global,
    shown: Shown<'_>,
    graph: &Graph<'_>,
    answers: &ReportAnswers,
    sink: &mut K,
) -> Result<Told, Fault>
    requires answers { TellReport graph.now answers.now }
    requires below { K.faults sink.old < 2 ^ 32 - 1 }
    ensures delivers { DeliversBy (Lints shown.entry.form (file_text shown.entry.file) shown.entry.telling graph.now)
        (K.contents sink.old) (K.contents sink.new) result }
    ensures flushed { OnOk result (K.flushed sink.new ≡ true) }
    ensures fault { IfErr result (OfProgram (λ _. ⊥) ⊥ ⊥) }
    ensures faults { K.faults sink.new ≡ K.faults sink.old + write_faults_in result }
{
    let told = linted(alloc, graph, answers)?;
    let what = told_by(shown.telling.tells_any(graph, &told));
    match push_formed(alloc, shown, graph, answers, &told, sink) {
        Ok(()) => Ok(what),
        Err(fault) => Err(fault),
    }
}

// The answers to what a report on a graph asks.
fn answered<R: Threads + Sync, G: Gate>(
    crew: &Crew<'_, R, G>,
    alloc: Global,
    graph: &Graph<'_>,
) -> Result<ReportAnswers, OutOfMemory>
    ensures { IfOk result (TellReport graph.now) }
{
    match Team::of(crew.threads, crew.gate, crew.workers, CUT) {
        Some(team) => ReportAnswers::of(&team, alloc, graph),
        None => ReportAnswers::answered_here(alloc, graph),
    }
}

// Writes the text of a graph's lints.
fn push_graph<R: Threads + Sync, G: Gate, K: Sink>(
    crew: &Crew<'_, R, G>,
    alloc: Global,
    shown: Shown<'_>,
    graph: &Graph<'_>,
    sink: &mut K,
) -> Result<Told, Fault>
    requires { K.faults sink.old < 2 ^ 32 - 1 }
    ensures delivers { DeliversBy (Lints shown.entry.form (file_text shown.entry.file) shown.entry.telling graph.now)
        (K.contents sink.old) (K.contents sink.new) result }
    ensures flushed { OnOk result (K.flushed sink.new ≡ true) }
    ensures fault { IfErr result (OfProgram (λ _. ⊥) ⊥ ⊥) }
    ensures faults { K.faults sink.new ≡ K.faults sink.old + write_faults_in result }
{
    let answers = answered(crew, alloc, graph)?;
    push_answers(alloc, shown, graph, &answers, sink)
}

// Writes what is told of a program, of the procedure of this number where there is one.
fn push_shown<R: Threads + Sync, G: Gate, K: Sink>(
    crew: &Crew<'_, R, G>,
    alloc: Global,
    asked: Asked<'_>,
    program: &Program,
    procedure: Option<u32>,
    sink: &mut K,
) -> Result<Told, Fault>
    requires below { K.faults sink.old < 2 ^ 32 - 1 }
    requires asked { ShowsProcedure program.now (name_asked asked.request) procedure }
    ensures delivers { DeliversBy (LintsWithin (wanted_of asked.entry) program.now) (K.contents sink.old) (K.contents sink.new) result }
    ensures flushed { OnOk result (K.flushed sink.new ≡ true) }
    ensures fault { IfErr result (OfProgram (IsOverLimit asked.entry.limits program.now) ⊥ ⊥) }
    ensures faults { K.faults sink.new ≡ K.faults sink.old + write_faults_in result }
{
    let graph = graph_of(alloc, program, asked.limits)?;
    let telling = Telling {
        kinds: asked.request.kinds,
        procedure,
        why: asked.request.why,
        style: asked.request.style,
    };
    push_graph(
        crew,
        alloc,
        Shown {
            form: asked.request.form,
            file: asked.file,
            telling,
        },
        &graph,
        sink,
    )
}

// Writes what is told of a program.
fn push_lints<R: Threads + Sync, G: Gate, K: Sink>(
    crew: &Crew<'_, R, G>,
    alloc: Global,
    asked: Asked<'_>,
    program: &Program,
    sink: &mut K,
) -> Result<Told, Fault>
    requires { K.faults sink.old < 2 ^ 32 - 1 }
    ensures delivers { DeliversBy (LintsWithin (wanted_of asked.entry) program.now) (K.contents sink.old) (K.contents sink.new) result }
    ensures flushed { OnOk result (K.flushed sink.new ≡ true) }
    ensures fault { IfErr result (OfProgram (IsOverLimit asked.entry.limits program.now)
        (LacksProcedure (name_asked asked.entry.request) program.now) ⊥) }
    ensures faults { K.faults sink.new ≡ K.faults sink.old + write_faults_in result }
{
    match procedure_asked(program, asked.request.procedure) {
        Some(procedure) => push_shown(crew, alloc, asked, program, procedure, sink),
        None => Err(Fault::NoProcedure),
    }
}

// Writes the lines of JSON of a text that is refused.
fn push_error_json<K: Sink>(
    alloc: Global,
    file: File<'_>,
    found: &[ToldRefusal],
    sink: &mut K,
) -> Result<(), Fault>
    requires { K.faults sink.old < 2 ^ 32 - 1 }
    ensures delivers { Delivers (λ out. out ≡ refusal_json_of file.entry.name.now file.entry.text.now found.now)
        (K.contents sink.old) (K.contents sink.new) result }
    ensures flushed { OnOk result (K.flushed sink.new ≡ true) }
    ensures fault { IfErr result (OfProgram (λ _. ⊥) ⊥ ⊥) }
    ensures faults { K.faults sink.new ≡ K.faults sink.old + write_faults_in result }
{
    let text = refusal_json(alloc, file.name, file.text, found)?;
    push_text(alloc, &Bytes(text.as_slice()), sink)
}

// Writes what is told of a text that is refused, in the form that is asked for.
fn push_refusals<K: Sink>(
    alloc: Global,
    asked: Asked<'_>,
    found: &[ToldRefusal],
    sink: &mut K,
) -> Result<(), Fault>
    requires { K.faults sink.old < 2 ^ 32 - 1 }
    ensures delivers { Delivers (λ out. out ≡ errors_text asked.entry.request.form asked.entry.request.style (file_text asked.entry.file) found.now)
        (K.contents sink.old) (K.contents sink.new) result }
    ensures flushed { OnOk result (K.flushed sink.new ≡ true) }
    ensures fault { IfErr result (OfProgram (λ _. ⊥) ⊥ ⊥) }
    ensures faults { K.faults sink.new ≡ K.faults sink.old + write_faults_in result }
{
    let file = asked.file;
    match asked.request.form {
        Form::Text => {
            let text = RefusalText {
                style: asked.request.style,
                file: file.name,
                text: file.text,
                found,
            };
            push_text(alloc, &text, sink)
        }
        Form::Json => push_error_json(alloc, file, found, sink),
    }
}

// Writes all that is wrong with a text.
fn push_errors<K: Sink>(alloc: Global, asked: Asked<'_>, sink: &mut K) -> Result<Told, Fault>
    requires { K.faults sink.old < 2 ^ 32 - 1 }
    ensures delivers { DeliversBy (HasErrors (wanted_of asked.entry)) (K.contents sink.old) (K.contents sink.new) result }
    ensures flushed { OnOk result (K.flushed sink.new ≡ true) }
    ensures fault { IfErr result (OfProgram (λ _. ⊥) ⊥ ⊥) }
    ensures faults { K.faults sink.new ≡ K.faults sink.old + write_faults_in result }
{
    let found = told_refusals(alloc, asked.limits, asked.file.text)?;
    match push_refusals(alloc, asked, found.as_slice(), sink) {
        Ok(()) => Ok(Told::Errors),
        Err(fault) => Err(fault),
    }
}

// Writes what is told of a text.
fn tell<R: Threads + Sync, G: Gate, K: Sink>(
    crew: &Crew<'_, R, G>,
    alloc: Global,
    asked: Asked<'_>,
    sink: &mut K,
) -> Result<Told, Fault>
    requires { K.faults sink.old < 2 ^ 32 - 1 }
    ensures delivers { DeliversBy (Tells (wanted_of asked.entry)) (K.contents sink.old) (K.contents sink.new) result }
    ensures flushed { OnOk result (K.flushed sink.new ≡ true) }
    ensures fault { IfErr result (OfProgram (HasNoGraph asked.entry.limits true asked.entry.file.text.now)
        (Lacking asked.entry.limits (LacksProcedure (name_asked asked.entry.request)) asked.entry.file.text.now) ⊥) }
    ensures no_read { read_faults_in result ≡ 0 }
    ensures faults { K.faults sink.new ≡ K.faults sink.old + write_faults_in result }
{
    match read_within(alloc, asked.file.text, asked.limits) {
        Ok(program) => push_lints(crew, alloc, asked, &program, sink),
        Err(ReadFault::Refused(_)) => push_errors(alloc, asked, sink),
        Err(ReadFault::OutOfMemory) => Err(Fault::OutOfMemory),
    }
}

/// Pulls the text of a file until the source has ended or one byte more is in hand than the limits allow; writes the lints of the program
/// that it is, or all that is wrong with it where it is none, and nothing else; and flushes. Answers which of these was told. The crew finds it, and what is written is the same for each.
///
/// The condition: the source has not ended, and both counts of faults are below `u32::MAX`.
///
/// - `Graph`: the text is a program, but has too many points (21) or bits (22). `NoProcedure`: it is one, but has no procedure of the name
///   that is asked for.
/// - `OutOfMemory`: memory was refused.
/// - `Read`: a pull was answered by a fault. `Write`: a push or the flush was; a beginning of what is to be told was pushed. After every
///   other fault nothing was.
pub fn run<R: Threads + Sync, G: Gate, S: Source, K: Sink>(
    crew: &Crew<'_, R, G>,
    alloc: Global,
    wish: Wish<'_>,
    source: &mut S,
    sink: &mut K,
) -> Result<Told, Fault>
    requires running { S.ended source.old ≡ false }
    requires source_below { S.faults source.old < 2 ^ 32 - 1 }
    requires sink_below { K.faults sink.old < 2 ^ 32 - 1 }
    ensures written { IfOk result (WritesTold wish.entry (S.remaining source.old) (S.remaining source.new) (S.ended source.new)
        (K.contents sink.old) (K.contents sink.new)) }
    ensures flushed { OnOk result (K.flushed sink.new ≡ true) }
    ensures refused { IfErr result (WhereRefused (λ _. ⊥)) }
    ensures no_graph { IfErr result (WhereNoGraph (PullsOverLimit wish.entry.limits true
        (S.remaining source.old) (S.remaining source.new) (S.ended source.new))) }
    ensures no_procedure { IfErr result (WhereNoProcedure (PullsLacking wish.entry.limits (LacksProcedure (name_asked wish.entry.request))
        (S.remaining source.old) (S.remaining source.new) (S.ended source.new))) }
    ensures all_sizes { IfErr result (WhereLargeProcedure ⊥) }
    ensures all_remarks { IfErr result (WhereNoRemark ⊥) }
    ensures beginning { IfErr result (WhereWrite (WritesBeginning wish.entry (S.remaining source.old) (S.remaining source.new) (S.ended source.new)
        (K.contents sink.old) (K.contents sink.new))) }
    ensures unwritten { IfErr result (UnlessWrite (Keeps (K.contents sink.old) (K.contents sink.new))) }
    ensures source_faults { S.faults source.new ≡ S.faults source.old + read_faults_in result }
    ensures sink_faults { K.faults sink.new ≡ K.faults sink.old + write_faults_in result }
{
    let most = wish.limits.text() as usize + 1;
    let text = pull_text(alloc, source, most)?;
    let asked = Asked {
        limits: wish.limits,
        request: wish.request,
        file: File {
            name: wish.name,
            text: text.as_slice(),
        },
    };
    tell(crew, alloc, asked, sink)
}
