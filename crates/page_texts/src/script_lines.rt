// The end of the element with the lines, and the first part of the script: its types, and how it reads the lines.

ghost use Rattle.std.specs.Prelude.{◌≡◌};
ghost use Rattle.page_texts.specs.Frame.{script_lines};

const SCRIPT_LINES: &str = r##"</script>

<script>
"use strict";
/* The script has six parts: the lines, statements and facts, ways and remarks, the graph's layout, the page itself, and rounds. The first
   four touch no document. Data comes into the document as text nodes and attributes alone, so no name can become markup. */

/**
 * @typedef {{ kind: string, to: number, site?: number, when?: boolean }} Edge
 * @typedef {{ came: number[], went: number[] }} Change
 * @typedef {{ path: boolean, came: number[], went: number[], behind: Change | null }} Changes  what a point's line tells of an analysis
 * @typedef {{ path: boolean, names: string[] }} Facts
 * @typedef {{ kind: "step" | "enter" | "pass", from: number, to: number, site?: number, callee?: number }} Hop
 * @typedef {{ sets: string | null, uses: string[], expression: string | null }} Parts
 *
 * @typedef {object} Remark  a line of type remark or doubt, which is one of kind doubt here
 * @property {number} point
 * @property {number} line
 * @property {string} kind
 * @property {string} [variable]
 * @property {string} [expression]
 * @property {Hop[]} [path]
 * @property {number[]} [next_writes]
 * @property {boolean} [may_end_unwritten]
 * @property {number[]} [last_evaluations]
 * @property {string[]} [holders]
 * @property {number[]} [next_evaluations]
 * @property {number | null} [last_reached]
 * @property {Edge[]} [edges]
 * @property {number} [doubt]
 * @property {string} [message]  of a source in C: what is told
 * @property {{ message: string, point: number | null, place: string }[]} [notes]  further places that it speaks of
 *
 * @typedef {object} Point  a line of type point, and what the page knows of it besides
 * @property {number} point
 * @property {string} procedure
 * @property {number} place
 * @property {number | null} line
 * @property {string[]} labels
 * @property {string | null} statement
 * @property {number | null} [leads_to]  of a doubtful point one to which it leads, and from which no path leads to the end of main
 * @property {Edge[]} edges
 * @property {string | null} factsText  its facts, which are parsed when they are looked at
 * @property {Object<string, Changes>} [changes]  its facts, parsed
 * @property {Map<string, { lines: string[], count: number }>} remarks  its remarks by kind: their lines, parsed when they are looked at, and
 *   how many they are
 * @property {boolean} calls
 * @property {Point[]} from  the points of its procedure from which control comes
 * @property {number} position  its number among the points that are shown, from 1
 * @property {number} row
 * @property {Parts} [words]  what its statement sets, uses and computes, as it is written
 *
 * @typedef {Change & { point: number }} ChangeAt  what a round changes at a point
 *
 * @typedef {object} Iteration  the rounds in which the sets of an analysis come about in the procedure that is shown
 * @property {"nothing" | "everything"} begin  what points that are computed have before the first round
 * @property {Map<number, number>} turns  these points by number, each with its turn in a round, from 1
 * @property {{ point: number, bits: number[] }[]} known  all others
 * @property {ChangeAt[][]} rounds
 *
 * @typedef {object} Program
 * @property {{ points: number, procedures: string[], variables: string[], definitions: number, expressions: number,
 *   definition_names: string[], expression_names: string[], language?: string }} head  of sources in C their language: then a point is
 *   a line of a file, and a procedure a file
 * @property {string} title
 * @property {Map<number, Point>} points  in order
 * @property {Map<number, Point>} atLine
 * @property {Map<string, number>} counts  of remarks by kind
 * @property {string[]} analyses  those that the lines have facts of
 * @property {{ line: number, start: number, text: string }[]} [source]  the lines of the text itself, where they are there
 * @property {Map<string, Iteration>} iterations  of each analysis whose rounds the lines have
 * @property {boolean} ended  whether the last line was read, and as many points as it tells
 */

// ---- The lines

/** Kinds of remarks in order of weight: a row takes the colour of the first that it has. */
const KINDS = {
  never_reached: { name: "never reached", sentence: () => "never reached" },
  unset: { name: "unset", sentence: remark => `${remark.variable} may be used before it is set` },
  dead: { name: "dead", sentence: remark => `assignment to ${remark.variable} is dead` },
  computed: { name: "computed", sentence: remark => `${remark.expression} is already computed` },
  busy: { name: "very busy", sentence: remark => `${remark.expression} is very busy` },
  doubt: { name: "held back", sentence: remark => `${remark.variable} is not read behind this, but what follows may never end` },
};
/** Kinds whose remarks stand in the strip beside the text: the others may be many and ask for no attention. */
const KINDS_OF_WEIGHT = ["never_reached", "unset", "dead"];

const ANALYSES = {
  reach: { name: "reaching definitions", names: "definition_names", forward: true, somePath: true },
  live: { name: "live variables", names: "variables", forward: false, somePath: true },
  avail: { name: "available expressions", names: "expression_names", forward: true, somePath: false },
  busy: { name: "very busy expressions", names: "expression_names", forward: false, somePath: false },
};
/** What is told of a remark. */
const sentenceOf = remark => remark.message ?? KINDS[remark.kind].sentence(remark);

const FACTS_BEGIN = /,"(?:reach|live|avail|busy)":\{/;
const REMARK_BEGINS = /"point":(\d+),.*?"kind":"(\w+)"/;

/** @param {string} text
    @returns {Program} */
function readProgram(text) {
  const program = {
    head: null, title: "", points: new Map(), atLine: new Map(), counts: new Map(), analyses: [], iterations: new Map(), ended: false,
  };
  let number = 0;
  for (const line of linesOf(text)) {
    number += 1;
    try {
      readLine(program, line);
    } catch (fault) {
      throw new Error(`line ${number} of this page's lines is not as tacview writes it (${fault.message})`);
    }
  }
  if (!program.head || !program.points.size) throw new Error("this page has no lines of a program");
  let position = 0;
  for (const point of program.points.values()) {
    point.position = position += 1;
    for (const next of nextPoints(program, point)) next.from.push(point);
  }
  if (!program.ended) throw new Error("this page has not all lines of a program");
  return program;
}

/** The lines that are not empty. */
function* linesOf(text) {
  for (let start = 0, end; start < text.length; start = end + 1) {
    end = text.indexOf("\n", start);
    if (end < 0) end = text.length;
    if (end > start) yield text.slice(start, end);
  }
}

function readLine(program, line) {
  if (line.startsWith('{"type":"point"')) readPoint(program, line);
  else if (line.startsWith('{"type":"remark"')) readRemark(program, line);
  else if (line.startsWith('{"type":"doubt"')) keepRemark(program, JSON.parse(line).point, "doubt", line);
  else if (line.startsWith('{"type":"page"')) program.title = JSON.parse(line).title;
  else if (line.startsWith('{"type":"program"')) program.head = JSON.parse(line);
  else if (line.startsWith('{"type":"source"')) (program.source ??= []).push(JSON.parse(line));
  else if (line.startsWith('{"type":"steps"')) program.ended = false;   // lines of rounds follow, and an end of their own
  else if (line.startsWith('{"type":"start"')) readStart(program, JSON.parse(line));
  else if (line.startsWith('{"type":"round"')) readRound(program, JSON.parse(line));
  else if (line.startsWith('{"type":"end"')) program.ended = JSON.parse(line).points === program.points.size;
  else throw new Error("a line of another kind");
}

function readStart(program, { analysis, begin, order, known }) {
  const turns = new Map(order.map((point, at) => [point, at + 1]));
  program.iterations.set(analysis, { begin, turns, known, rounds: [] });
}

function readRound(program, { analysis, changed }) {
  program.iterations.get(analysis).rounds.push(changed);
}

/** The facts stay text until the point is looked at: they are most of a large page. */
function readPoint(program, line) {
  const facts = line.search(FACTS_BEGIN);
  const point = JSON.parse(facts < 0 ? line : line.slice(0, facts) + "}");
  point.factsText = facts < 0 ? null : "{" + line.slice(facts + 1);
  point.remarks = new Map();
  point.from = [];
  point.calls = point.edges.some(edge => edge.kind === "call");
  program.points.set(point.point, point);
  if (point.line !== null && !program.atLine.has(point.line)) program.atLine.set(point.line, point);
  if (point.factsText && !program.analyses.length)
    program.analyses = Object.keys(JSON.parse(point.factsText)).filter(name => Object.hasOwn(ANALYSES, name));
}

/** Of a remark too only its place and kind are read at first: there may be 200,000. A line of very busy expressions may have several. */
function readRemark(program, line) {
  const [, point, kind] = REMARK_BEGINS.exec(line);
  const count = line.includes('"expressions":') ? JSON.parse(line).expressions.length : 1;
  keepRemark(program, Number(point), kind, line, count);
}

function keepRemark(program, number, kind, line, count = 1) {
  const { remarks } = program.points.get(number);
  program.counts.set(kind, (program.counts.get(kind) ?? 0) + count);
  if (!remarks.has(kind)) remarks.set(kind, { lines: [], count: 0 });
  remarks.get(kind).lines.push(line);
  remarks.get(kind).count += count;
}

/** Where control is next in the same procedure: behind its steps, or for a call at the point behind it.

    @returns {Point[]} */
function nextPoints(program, point) {
  const next = new Set(stepsOf(point).map(edge => edge.to));
  if (point.calls) next.add(point.point + 1);
  return [...next].map(to => program.points.get(to)).filter(Boolean);
}

const stepsOf = point => point.edges.filter(edge => edge.kind === "step");

/** The rows of the text: a point's row knows it, and the point its row. */
function makeRows(program) {
  if (program.source) return makeSourceRows(program);
  const rows = [];
  const word = program.head.language ? "" : "proc ";
  let procedure = null;
  for (const point of program.points.values()) {
    if (point.procedure !== procedure) rows.push({ sort: "procedure", text: word + point.procedure, point });
    procedure = point.procedure;
    for (const label of point.labels) rows.push({ sort: "label", text: label + ":", point });
    point.row = rows.push({ sort: "point", text: point.statement ?? "end", point }) - 1;
  }
  return rows;
}

/** The rows of the text's own lines: those of statements and of ends know their points, all others can't be chosen. */
function makeSourceRows(program) {
  const points = [...program.points.values()];
  const ends = new Map(points.filter(point => point.line === null).map(point => [point.procedure, point]));
  const rows = [];
  let procedure = null;
  for (const { line, text } of program.source) {
    const words = text.replace(/#.*/s, "").trim(), [, opened] = /^proc\s+(\w+)$/.exec(words) ?? [];
    procedure = opened ?? procedure;
    const point = words === "end" ? ends.get(procedure) : program.atLine.get(line);
    const sort = point ? "point" : opened ? "procedure" : "source";
    const row = rows.push({ sort, text: textOfBytes(text), point: point ?? null, line }) - 1;
    if (point) point.row = row;
  }
  return rows;
}

/** Bytes as a text, of which each sign stands for one: UTF-8, and what is none has a sign in its place. */
function textOfBytes(bytes) {
  return /^[ -~]*$/.test(bytes) ? bytes : new TextDecoder().decode(Uint8Array.from(bytes, sign => sign.charCodeAt(0)));
}

"##;

pub(crate) fn script_lines<'a>() -> &'a [u8]
    ensures { result.now ≡ script_lines }
{
    SCRIPT_LINES.as_bytes()
}
