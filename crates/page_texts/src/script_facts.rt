// The part of the script that knows statements, facts, and what stands around remarks.

ghost use Rattle.std.specs.Prelude.{◌≡◌};
ghost use Rattle.page_texts.specs.Frame.{script_facts};

const SCRIPT_FACTS: &str = r##"// ---- Statements and facts

const variablesIn = text => text.match(/[A-Za-z_]\w*/g) ?? [];

/** What a statement sets, uses and computes, read from its text once.

    @returns {Parts} */
function partsOf(point) {
  point.words ??= readParts(point.statement ?? "");
  return point.words;
}

function readParts(statement) {
  const read = /^read (\w+)$/.exec(statement);
  if (read) return { sets: read[1], uses: [], expression: null };
  const assignment = /^(\w+) = (.*)$/.exec(statement);
  if (assignment) {
    const [, sets, right] = assignment;
    return { sets, uses: variablesIn(right), expression: /^\w+$/.test(right) ? null : right };
  }
  const operands = /^print (.*)$/.exec(statement) ?? /^if(?:False)? (.*) goto \w+$/.exec(statement);
  return { sets: null, uses: operands ? variablesIn(operands[1]) : [], expression: null };
}

/** How a point's test has come out where control goes to another point: null of other statements, and where both ways are one. */
function outcomeOf(point, to) {
  return stepsOf(point).find(step => step.to === to)?.when ?? null;
}

/** What a point's line tells of its facts.

    @returns {Object<string, Changes>} */
function changesOf(point) {
  if (point.factsText) {
    point.changes = JSON.parse(point.factsText);
    point.factsText = null;
  }
  return point.changes ?? {};
}

/** Where each analysis was looked at last, and the set there, by numbers: from it other points of the procedure are reached step by step.
    @type {Map<string, { at: Point, set: Set<number> }>} */
const cursors = new Map();

/** The set of an analysis before a point. */
function setAt(program, point, analysis) {
  let cursor = cursors.get(analysis);
  if (cursor?.at.procedure !== point.procedure) {
    const at = program.points.get(point.point - point.place);
    cursor = { at, set: new Set(changesOf(at)[analysis].came) };
    cursors.set(analysis, cursor);
  }
  while (cursor.at.point < point.point) {
    cursor.at = program.points.get(cursor.at.point + 1);
    applyChange(cursor.set, changesOf(cursor.at)[analysis]);
  }
  while (cursor.at.point > point.point) {
    const { came, went } = changesOf(cursor.at)[analysis];
    applyChange(cursor.set, { came: went, went: came });
    cursor.at = program.points.get(cursor.at.point - 1);
  }
  return cursor.set;
}

function applyChange(set, { came, went }) {
  for (const bit of went) set.delete(bit);
  for (const bit of came) set.add(bit);
}

/** What the bits of a set are called, in the order of their numbers. */
function namesOf(program, analysis, set) {
  const names = program.head[ANALYSES[analysis].names];
  return [...set].sort((one, other) => one - other).map(bit => names[bit]);
}

/** The facts of an analysis before a point.

    @returns {Facts | null} */
function factsBefore(program, point, analysis) {
  const told = changesOf(point)[analysis];
  return told ? { path: told.path, names: namesOf(program, analysis, setAt(program, point, analysis)) } : null;
}

/** What holds behind a statement: at a call, where the lines tell it at the point that follows, `joined` says that other ways may lead there. */
function factsBehind(program, point, analysis) {
  const { forward } = ANALYSES[analysis], next = nextPoints(program, point);
  const { behind } = changesOf(point)[analysis];
  if (behind) {
    const set = new Set(setAt(program, point, analysis));
    applyChange(set, behind);
    const path = forward || next.some(each => changesOf(each)[analysis].path);
    return { path, names: namesOf(program, analysis, set), joined: false };
  }
  if (!point.calls) return null;   // a procedure's end
  return { ...factsBefore(program, next[0], analysis), joined: forward && next[0].from.length > 1 };
}

/** What came, went and stays in the direction of the analysis; without `behind` all that holds at the point stays. `isLost` says that
    there is a point behind, and no path leads there, or from there on. */
function changeAt(program, point, analysis) {
  const before = factsBefore(program, point, analysis);
  const behind = factsBehind(program, point, analysis);
  const { path, names } = before;
  const isLost = behind?.path === false;
  if (!path || !behind || isLost) return { path, before: names, behind: null, joined: false, isLost, came: [], went: [], stays: names };
  const [old, now] = ANALYSES[analysis].forward ? [names, behind.names] : [behind.names, names];
  const had = new Set(old), has = new Set(now);
  return {
    path: true,
    before: names,
    behind: behind.names,
    joined: behind.joined,
    isLost,
    came: now.filter(name => !had.has(name)),
    went: old.filter(name => !has.has(name)),
    stays: now.filter(name => had.has(name)),
  };
}

/** A definition's variable, and its line or "entry". */
function partsOfDefinition(name) {
  const sign = name.lastIndexOf("@");
  return { variable: name.slice(0, sign), line: name.slice(sign + 1) };
}

/** The points that the facts before a point speak of: true where its statement uses or sets what they are about.
    @returns {Map<Point, boolean>} */
function pointsSpokenOf(program, point, analysis) {
  const facts = factsBefore(program, point, analysis);
  if (!facts?.path) return new Map();
  return analysis === "reach" ? definitionsSpokenOf(program, point, facts) : usesSpokenOf(program, point, analysis, facts);
}

function definitionsSpokenOf(program, point, facts) {
  const spoken = new Map();
  for (const name of facts.names) {
    const { variable, line } = partsOfDefinition(name);
    const definition = program.atLine.get(Number(line));
    if (definition) spoken.set(definition, partsOf(point).uses.includes(variable));
  }
  return spoken;
}

function usesSpokenOf(program, point, analysis, facts) {
  const live = analysis === "live", here = partsOf(point), spoken = new Map();
  const names = new Set([...facts.names, ...(live && factsBehind(program, point, analysis)?.names || [])]);
  for (const other of program.points.values()) {
    const parts = partsOf(other);
    const shared = (live ? parts.uses : [parts.expression]).filter(name => names.has(name));
    if (shared.length) spoken.set(other, shared.includes(live ? here.sets : here.expression));
  }
  return spoken;
}

/** Whether the statement itself is about a name of an analysis. */
function isUsedHere(point, analysis, name) {
  const here = partsOf(point);
  if (analysis === "reach") return here.uses.includes(partsOfDefinition(name).variable);
  if (analysis === "live") return name === here.sets || here.uses.includes(name);
  return name === here.expression;
}

// ---- Ways and remarks

/** The points on the way of a remark, each with the hop that leaves it: the last is the remark's own. */
function stationsOf(remark) {
  const stations = remark.path.map(hop => ({ at: hop.from, hop }));
  return [...stations, { at: remark.point, hop: null }];
}

/** What happens on the way at a station, in a few words, and in fewer at its row: none where control just goes on. */
function wordsOfStation(program, remark, { at, hop }) {
  const { variable } = remark;
  if (!hop) return { words: `${variable} is used here`, tag: `uses ${variable}` };
  if (hop.kind === "step") return wordsOfStep(program, at, hop.to);
  if (hop.kind === "pass") {
    const callee = program.head.procedures[hop.callee];
    return { words: `passes ${callee} as a whole, which may leave ${variable} unset`, tag: `passes ${callee}` };
  }
  const callee = program.points.get(hop.to)?.procedure ?? "a procedure that is not shown";
  return { words: `enters ${callee}`, tag: `enters ${callee}` };
}

function wordsOfStep(program, at, number) {
  const point = program.points.get(at), to = program.points.get(number);
  const outcome = point ? outcomeOf(point, number) : null;
  const place = to ? placeName(to) : `point ${number}`;
  const goesOn = number === at + 1 && Boolean(to?.line);
  const words = goesOn ? "goes on" : `goes to ${place}`;
  if (outcome === null) return { words, tag: goesOn ? "" : `to ${place}` };
  return { words: `the test ${outcome ? "holds" : "fails"}: ${words}`, tag: `${outcome}: to ${place}` };
}

/** Successive steps that just go on are told as one, but for those around the station where the reader is.
    @returns {{ first: number, last: number }[]}  stations by number, from 0 */
function foldStations(words, at) {
  const folded = [];
  for (let first = 0, last = 0; first < words.length; first = last + 1) {
    last = first;
    while (last + 1 < words.length && !words[last].tag && !words[last + 1].tag) last += 1;
    const isLong = last - first >= 4, isNear = first <= at && at <= last;
    if (isLong && !isNear) folded.push({ first, last });
    else for (let each = first; each <= last; each += 1) folded.push({ first: each, last: each });
  }
  return folded;
}

/** @typedef {{ field: string, word: string, points?: number[], names?: string[], none?: string, edges?: Edge[] }} Surrounding
    A field of a remark: a word, and with it points or names, or what is told where there are none. */

/** What stands around a remark, by kind.

    @type {Object<string, (remark: Remark) => Surrounding[]>} */
const AROUND = {
  never_reached: ({ last_reached: last, edges }) => {
    const points = last === null ? [] : [last];
    const reached = { field: "last_reached", word: "last line reached before it", points, none: "none in its procedure" };
    const instead = { field: "edges", word: "control goes from there to", points: edges?.map(edge => edge.to), edges, none: "nowhere" };
    return last === null ? [reached] : [reached, instead];
  },
  unset: () => [],
  dead: remark => [
    { field: "next_writes", word: "overwritten in", points: remark.next_writes, none: "no statement" },
    { field: "may_end_unwritten", word: `${remark.may_end_unwritten ? "some" : "no"} way comes to the end of main without a write of it` },
  ],
  computed: remark => [
    { field: "last_evaluations", word: "evaluated last in", points: remark.last_evaluations, none: "no statement" },
    { field: "holders", word: "its value is held by", names: remark.holders, none: "no variable on every way" },
  ],
  busy: remark => [{ field: "next_evaluations", word: "evaluated next in", points: remark.next_evaluations, none: "no statement" }],
  doubt: remark => [{ field: "doubt", word: "no path leads to the end of main from", points: [remark.doubt] }],
};

/** Of the fields that the lines have: without --paths they have none.

    @returns {Surrounding[]} */
const around = remark => [...AROUND[remark.kind](remark).filter(({ field }) => remark[field] !== undefined), ...notesOf(remark)];

/** The notes of a remark on a source in C. */
const notesOf = remark => (remark.notes ?? []).map(({ message, point, place }) =>
  ({ field: "notes", word: message, points: point === null ? [] : [point], none: place }));

const placeName = point => point.line === null ? "end of " + point.procedure : "line " + point.line;

"##;

pub(crate) fn script_facts<'a>() -> &'a [u8]
    ensures { result.now ≡ script_facts }
{
    SCRIPT_FACTS.as_bytes()
}
