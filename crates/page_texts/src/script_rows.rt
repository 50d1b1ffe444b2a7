// The part of the script that shows the text, and the line that is chosen.

ghost use Rattle.std.specs.Prelude.{◌≡◌};
ghost use Rattle.page_texts.specs.Frame.{script_rows};

const SCRIPT_ROWS: &str =
    r##"// ---- The page: its state, and the one way in which it changes: choose

const ROW_HEIGHT = 22;   // as in the style
const CHIPS_AT_FIRST = 60, REMARKS_AT_FIRST = 8, POINTS_AT_FIRST = 20, STATIONS_AT_FIRST = 150, ROWS_ON_PAPER = 5000;
const SVG = "http://www.w3.org/2000/svg";
const SVG_TAGS = new Set(["svg", "g", "rect", "path", "text", "title", "marker", "defs"]);

/** An element of the frame, of whichever kind it is.

    @type {(id: string) => any} */
const byId = id => document.getElementById(id);

/** An element with attributes, handlers (names that begin with "on") and children; texts become text nodes. */
function element(tag, properties = {}, ...children) {
  const made = SVG_TAGS.has(tag) ? document.createElementNS(SVG, tag) : document.createElement(tag);
  for (const [name, value] of Object.entries(properties)) {
    if (name.startsWith("on")) made[name] = value;
    else if (value !== null && value !== undefined) made.setAttribute(name, value);
  }
  made.append(...children);
  return made;
}

/** What the page shows now.
    @type {{ program: Program, rows: { sort: string, text: string, point: Point, line?: number }[], chosen: Point, tab: string,
      shownKinds: Set<string>, round: number | null,
      entriesShown: boolean, spoken: Map<Point, boolean>, around: Set<Point>, matches: Set<Point>, trail: Point[],
      way: null | { remark: Remark, stations: { at: number, hop: Hop | null }[], words: { words: string, tag: string }[], at: number,
        ordinals: Map<number, number[]>, steps: Set<string> } }} */
const page = {
  program: null, rows: [], chosen: null, tab: "all", shownKinds: new Set(Object.keys(KINDS)), entriesShown: false,
  spoken: new Map(), around: new Set(), matches: new Set(), trail: [], way: null, round: null,
};

const kindsOf = point => Object.keys(KINDS).filter(kind => page.shownKinds.has(kind) && point.remarks.has(kind));
const kindOf = point => kindsOf(point)[0];

/** The first remarks of a kind at a point.

    @returns {Remark[]} */
function remarksOf(point, kind, most = Infinity) {
  const lines = point.remarks.get(kind)?.lines ?? [];
  return lines.slice(0, most).flatMap(line => remarksIn(kind, line)).slice(0, most);
}

/** The remarks of a line: one, or one for each very busy expression. */
function remarksIn(kind, line) {
  const remark = { ...JSON.parse(line), kind };
  if (!remark.expressions) return [remark];
  return remark.expressions.map(bit => ({ ...remark, expression: page.program.head.expression_names[bit] }));
}

/** Chooses a point, and shows all that is known of it; a jump can be gone back. Where it is on the way that is shown, and not gone to by
    it, the way goes on from there. */
function choose(point, { jump = false, byWay = false } = {}) {
  if (!point) return;
  if (jump && page.chosen !== point) page.trail.push(page.chosen);
  page.chosen = point;
  sayFound();
  if (page.way && !byWay) joinWay(point);
  const analysis = page.tab === "all" ? "reach" : page.tab;
  page.spoken = page.program.analyses.includes(analysis) && !showsRounds() ? pointsSpokenOf(page.program, point, analysis) : new Map();
  page.around = pointsAround(point);
  showRounds();
  scrollToChosen();
  byId("listing").setAttribute("aria-activedescendant", "row" + point.row);
  byId("procedures").value = point.procedure;
  drawRows();
  showWay();
  showPlace();
  showFacts();
  drawGraph();
  if (document.activeElement === document.body) byId("listing").focus({ preventScroll: true });   // what had the focus is gone
}

function pointsAround(point) {
  const remarks = kindsOf(point).flatMap(kind => remarksOf(point, kind, REMARKS_AT_FIRST));
  const numbers = remarks.flatMap(around).flatMap(({ points }) => points ?? []);
  return new Set(numbers.map(number => page.program.points.get(number)).filter(Boolean));
}

// -- The text

/** What is said of a point at its row: a remark's sentence, or what several of a kind speak of. */
function saidOf(point) {
  return kindsOf(point).map(kind => {
    const { count } = point.remarks.get(kind), remarks = remarksOf(point, kind, 3);
    if (count === 1) return sentenceOf(remarks[0]);
    const more = count > 3 ? ` and ${count - 3} more` : "";
    return `${KINDS[kind].name}: ${remarks.map(remark => remark.message ?? remark.variable ?? remark.expression).join(", ")}${more}`;
  }).join("; ");
}

function makeRow(at) {
  const { sort, text, point, line } = page.rows[at];
  if (sort !== "point") return makeHeadRow(sort, text, at, line);
  const said = saidOf(point), ordinals = page.way?.ordinals.get(point.point), tags = ordinals ? tagsOf(ordinals) : "";
  const told = shownAtRound(point);
  const classes = ["row", "point", kindOf(point) ?? "plain"];
  if (ordinals) classes.push("way");
  if (page.way?.stations[page.way.at]?.at === point.point) classes.push("current");
  if (page.matches.has(point)) classes.push("match");
  if (told) classes.push(told.turn ? "computed-set" : "known-set", ...(told.isChanged ? ["changed"] : []));
  const properties = {
    class: classes.join(" "), id: "row" + at, role: "option", "data-point": point.point, style: `top:${at * ROW_HEIGHT}px`,
    "aria-selected": point === page.chosen, "aria-posinset": point.position, "aria-setsize": page.program.points.size,
    "aria-label": labelOfRow(point, said, ordinals, told), onclick: () => choose(point),
  };
  return element("div", properties,
    ...(page.way || told ? [element("span", { class: "stations" }, told ? String(told.turn ?? "–") : ordinalText(ordinals))] : []),
    element("span", { class: "mark" }, markOf(point)),
    element("span", { class: "number" }, String(line ?? point.line ?? "")),
    element("code", {}, line || point.statement === null ? text : "  " + text),
    ...(tags ? [element("span", { class: "tag" }, tags)] : []),
    ...(told ? [element("span", { class: "set", title: textOfSet(told) }, textOfSet(told))] : []),
    element("span", { class: "said", title: said }, said));
}

/** The row of a procedure or a label, which can't be chosen: the row of its point tells it to who can't see it. So is one of the text's own that
    has no statement. */
function makeHeadRow(sort, text, at, line) {
  return element("div", { class: "row " + sort, "aria-hidden": true, style: `top:${at * ROW_HEIGHT}px` },
    ...(page.way || showsRounds() ? [element("span", { class: "stations" })] : []),
    element("span", { class: "mark" }), element("span", { class: "number" }, String(line ?? "")), element("span", { class: "name" }, text));
}

function labelOfRow(point, said, ordinals, told) {
  return [
    point.place === 0 && `${page.program.head.language ? "file" : "procedure"} ${point.procedure}`,
    ...point.labels.map(label => `label ${label}`),
    `${placeName(point)}${point.statement === null ? "" : ": " + point.statement}`,
    said,
    told && labelOfRound(told),
    ordinals && `step ${ordinals.join(" and ")} of the way, ${tagsOf(ordinals)}`,
    page.around.has(point) && "around the chosen line's remarks",
  ].filter(Boolean).join(". ");
}

function markOf(point) {
  if (page.around.has(point)) return "◆";
  if (!page.spoken.has(point)) return "";
  return page.spoken.get(point) ? "●" : "○";
}

/** The steps at which a way comes to a row, short enough for the margin. */
function ordinalText(ordinals) {
  if (!ordinals) return "";
  return ordinals.length > 2 ? `${ordinals[0]} …` : ordinals.join(" ");
}

const tagsOf = ordinals => [...new Set(ordinals.map(ordinal => page.way.words[ordinal - 1].tag))].filter(Boolean).join(", ");

/** Puts the rows in view into the sheet; for paper, all up to a limit. Sizes are read before anything changes, since they would have to be
    found anew behind it. */
function drawRows({ all = false } = {}) {
  const { scrollTop: top, clientHeight: height } = byId("listing");
  const first = all ? 0 : Math.max(0, Math.floor(top / ROW_HEIGHT) - 8);
  const count = all ? ROWS_ON_PAPER : Math.ceil(height / ROW_HEIGHT) + 16;
  const last = Math.min(page.rows.length, first + count);
  byId("sheet").replaceChildren(...Array.from({ length: last - first }, (_, at) => makeRow(first + at)));
  drawRuler(top, height);
}

function scrollToChosen() {
  const listing = byId("listing"), top = page.chosen.row * ROW_HEIGHT - listing.scrollTop, room = listing.clientHeight;
  const beyond = Math.min(top - 2 * ROW_HEIGHT, 0) + Math.max(top - room + 3 * ROW_HEIGHT, 0);
  if (beyond) listing.scrollTop += Math.abs(beyond) > 4 * ROW_HEIGHT ? top - room / 2 : beyond;
}

/** For which height and kinds the remarks' part of the ruler was made. */
let ruledFor = "";

/** The whole program in one strip: remarks of weight on its left, lines that are marked on its right. */
function drawRuler(top, height) {
  const whole = Math.max(page.rows.length * ROW_HEIGHT, height), share = height / whole;
  const yOf = point => Math.floor((point.row + 0.5) * ROW_HEIGHT * share / 2) * 2;
  const key = [height, ...page.shownKinds].join();
  if (ruledFor !== key) byId("ruler-remarks").replaceChildren(...ticksOfRemarks(yOf).map(tick => element("rect", tick)));
  ruledFor = key;
  const onWay = [...(page.way?.ordinals.keys() ?? [])].map(number => page.program.points.get(number)).filter(Boolean);
  const ticks = (points, name) => [...new Set(points.map(yOf))].map(y => ({ class: name, x: 7, y, width: 5, height: 2 }));
  const seen = { class: "seen", x: 0, y: top * share, width: share < 1 ? 12 : 0, height: Math.max(4, height * share) };
  const chosen = { class: "chosen", x: 0, y: yOf(page.chosen), width: 12, height: 2 };
  const all = [seen, ...ticks([...page.spoken.keys(), ...page.around], "mark"), ...ticks(onWay, "way"), chosen];
  byId("ruler-marks").replaceChildren(...all.map(tick => element("rect", tick)));
}

function ticksOfRemarks(yOf) {
  const ticks = new Map();
  for (const point of page.program.points.values()) {
    const kind = kindOf(point);
    if (KINDS_OF_WEIGHT.includes(kind)) ticks.set(kind + yOf(point), { class: kind, x: 0, y: yOf(point), width: 6, height: 2 });
  }
  return [...ticks.values()];
}

// -- The line: its place and remarks, and where control comes from and goes

/** A link to a point by number; one that the lines do not have is told as it is. */
function pointLink(number, before = "") {
  const point = page.program.points.get(number);
  if (!point) return element("span", { class: "chip", title: "of a procedure that is not shown" }, `${before}point ${number}`);
  const place = point.procedure === page.chosen.procedure ? placeName(point) : `${point.procedure}, ${placeName(point)}`;
  const title = point.statement ?? "end";
  return element("button", { class: "chip place", title, "data-to": number, onclick: () => choose(point, { jump: true }) }, before + place);
}

/** Children of which only some are there until the button behind them is pressed. */
function shortened(items, most, makeItem) {
  const made = items.slice(0, most).map(makeItem);
  if (items.length <= most) return made;
  const unfold = event => {
    const rest = items.slice(most).map(makeItem);
    event.target.replaceWith(...rest);
    rest[0].focus?.();
  };
  return [...made, element("button", { class: "chip more", onclick: unfold }, `${items.length - most} more`)];
}

function chipsLine(word, items, properties = {}) {
  const chips = element("div", { class: "chips" }, ...items);
  return element("div", { class: "change", ...properties }, element("span", { class: "quiet" }, word), chips);
}

function showPlace() {
  const { chosen } = page, kinds = kindsOf(chosen);
  byId("place").textContent = `${chosen.procedure}, ${placeName(chosen)}`;
  byId("statement").textContent = chosen.statement ?? "end";
  const remarks = kinds.flatMap(kind => remarksOf(chosen, kind));
  const hidden = [...chosen.remarks.keys()].length - kinds.length;
  const words = hidden ? "Remarks on this line are of kinds that are not shown." : "No remark on this line.";
  const none = element("p", { class: "quiet" }, words);
  byId("remarks").replaceChildren(...(remarks.length ? shortened(remarks, REMARKS_AT_FIRST, showRemark) : [none]));
  showControl();
}

/** A remark: its sentence, and what stands around it or the button for its way. */
function showRemark(remark) {
  const box = element("article", { class: "remark " + remark.kind, "data-kind": remark.kind });
  box.append(element("div", { class: "sentence" }, sentenceOf(remark)));
  if (remark.path) {
    const shown = isWayOf(remark), count = remark.path.length;
    const press = () => shown ? leaveWay() : takeWay(remark);
    box.append(element("button", { class: "chip", "aria-pressed": shown, "data-way": count, onclick: press },
      shown ? "leave the way" : `show the way: ${count} ${count === 1 ? "step" : "steps"} from the beginning of main`));
  }
  const sets = element("div", { class: "around" });
  for (const set of around(remark)) sets.append(showSet(set));
  if (sets.children.length) box.append(sets);
  return box;
}

/** @param {Surrounding} surrounding */
function showSet({ field, word, points, names, none, edges }) {
  if (!points && !names) return element("p", { "data-set": field, class: "quiet" }, word);
  const makeItem = (item, at) => {
    if (names) return element("button", { class: "chip", title: "find in the text", onclick: () => search(item) }, item);
    const kind = edges?.[at].kind;
    return pointLink(item, kind === "call" ? "into " : kind === "return" ? "back to " : "");
  };
  const items = shortened(points ?? names, POINTS_AT_FIRST, makeItem);
  return chipsLine(word, items.length ? items : [element("span", {}, none)], { "data-set": field });
}

function showControl() {
  const { program, chosen } = page;
  const targets = kind => chosen.edges.filter(edge => edge.kind === kind).map(edge => program.points.get(edge.to)).filter(Boolean);
  const lines = [
    { word: "from", points: chosen.from },
    { word: "calls", points: targets("call") },
    { word: chosen.calls ? "behind the call" : "next", points: nextPoints(program, chosen) },
    { word: "returns to", points: targets("return") },
  ];
  const link = word => point => {
    const outcome = word === "next" ? outcomeOf(chosen, point.point) : null;
    return pointLink(point.point, outcome === null ? "" : `${outcome}: `);
  };
  byId("control").replaceChildren(...lines.filter(({ points }) => points.length).map(({ word, points }) =>
    chipsLine(word, shortened(points, POINTS_AT_FIRST, link(word)), { "data-control": word })), ...doubtOf(chosen));
}

/** Why what follows a point may never end: the point to which it leads and from which no path leads to the end of main. */
function doubtOf({ point, leads_to: origin }) {
  if (origin === null || origin === undefined) return [];
  const words = origin === point ? "doubtful: no path leads from here to the end of main" : "doubtful: no path leads to the end of main from";
  return [chipsLine(words, origin === point ? [] : [pointLink(origin)], { "data-control": "doubtful" })];
}

"##;

pub(crate) fn script_rows<'a>() -> &'a [u8]
    ensures { result.now ≡ script_rows }
{
    SCRIPT_ROWS.as_bytes()
}
