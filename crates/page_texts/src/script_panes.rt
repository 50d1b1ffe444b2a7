// The part of the script that shows ways, facts, and the graph.

ghost use Rattle.std.specs.Prelude.{◌≡◌};
ghost use Rattle.page_texts.specs.Frame.{script_panes};

const SCRIPT_PANES: &str = r##"// -- The way of a remark

const isWayOf = remark => page.way !== null && page.way.remark.point === remark.point && page.way.remark.variable === remark.variable;

function takeWay(remark) {
  const stations = stationsOf(remark), ordinals = new Map();
  stations.forEach(({ at }, index) => ordinals.set(at, [...(ordinals.get(at) ?? []), index + 1]));
  const steps = new Set(remark.path.map(hop => `${hop.from}>${hop.to}`));   // an edge into a call is never drawn
  const words = stations.map(station => wordsOfStation(page.program, remark, station));
  page.way = { remark, stations, words, at: stations.length - 1, ordinals, steps };
  setStationWidth(1 + [...ordinals.values()].reduce((most, each) => Math.max(most, ordinalText(each).length), 0));
  walkTo(0);
}

function leaveWay() {
  if (!page.way) return;
  const { remark } = page.way;
  page.way = null;
  setStationWidth(0);
  choose(page.program.points.get(remark.point) ?? page.chosen);
}

const setStationWidth = letters => document.documentElement.style.setProperty("--stations", letters);

/** Goes to a station; where the lines do not have its point, only the way says where it is. */
function walkTo(index) {
  const { way, program, chosen } = page;
  if (!way || index < 0 || index >= way.stations.length) return;
  way.at = index;
  choose(program.points.get(way.stations[index].at) ?? chosen, { byWay: true });
}

/** The next way of the chosen line: from none to the first, from the last to none. */
function turnWays() {
  const { way, chosen } = page;
  const point = way && isOnWay(chosen) ? page.program.points.get(way.remark.point) : chosen;
  const remarks = point ? remarksOf(point, "unset").filter(remark => remark.path) : [];
  const next = remarks[remarks.findIndex(isWayOf) + 1];
  if (next) takeWay(next);
  else if (way) leaveWay();
  else say("no way is told here");
}

const isOnWay = point => page.way.ordinals.has(point.point);

/** Where a point that was chosen by itself is on the way, the reader is there, at its first step there. */
function joinWay(point) {
  const { way } = page;
  if (isOnWay(point) && way.stations[way.at].at !== point.point) way.at = way.ordinals.get(point.point)[0] - 1;
}

function showWay() {
  const { way } = page;
  byId("way").hidden = !way;
  if (!way) return;
  const last = way.stations.length - 1;
  byId("way-title").textContent = `Way: ${KINDS.unset.sentence(way.remark)}, line ${way.remark.line}`;
  byId("way-now").textContent = `Step ${way.at + 1} of ${last + 1}: ${way.words[way.at].words}`;
  byId("way-back").disabled = way.at === 0;
  byId("way-on").disabled = way.at === last;
  showSteps(way);
}

function showSteps(way) {
  const folded = foldStations(way.words, way.at);
  const here = folded.findIndex(({ first, last }) => first <= way.at && way.at <= last);
  const start = Math.max(0, Math.min(here - STATIONS_AT_FIRST / 2, folded.length - STATIONS_AT_FIRST));
  const shown = folded.slice(start, start + STATIONS_AT_FIRST);
  const before = shown[0].first, behind = way.stations.length - 1 - shown.at(-1).last;
  const rest = count => count ? [element("li", { class: "quiet" }, `and ${count} more`)] : [];
  byId("way-steps").replaceChildren(...rest(before), ...shown.map(each => makeStep(way, each)), ...rest(behind));
  byId("way-steps").querySelector("[aria-current]")?.scrollIntoView({ block: "nearest" });
}

function makeStep(way, { first, last }) {
  const isHere = first <= way.at && way.at <= last, count = last - first + 1;
  const place = placeOnWay(way, first), point = page.program.points.get(way.stations[first].at);
  const what = count > 1 ? `${place} to ${placeOnWay(way, last)}` : point ? `${place}: ${point.statement ?? "end"}` : place;
  const words = count > 1 ? `${count} steps that just go on` : way.words[first].words;
  return element("li", { "aria-current": isHere ? "step" : null, "data-station": first + 1 },
    element("button", { tabindex: isHere ? 0 : -1, onclick: () => walkTo(first) },
      element("span", { class: "ordinal" }, String(first + 1)),
      element("span", {}, element("span", { class: "place" }, what), ` ${words}`)));
}

function placeOnWay(way, index) {
  const number = way.stations[index].at, point = page.program.points.get(number);
  return point ? placeName(point) : `point ${number}, not shown`;
}

// -- Facts

function factChip(analysis, name) {
  const definition = analysis === "reach" ? partsOfDefinition(name) : null;
  const point = definition && page.program.atLine.get(Number(definition.line));
  const classes = ["chip", point ? "place" : "", isUsedHere(page.chosen, analysis, name) ? "used" : ""];
  const title = point ? `${placeName(point)}: ${point.statement}` : `find ${name} in the text`;
  const goOrFind = () => point ? choose(point, { jump: true }) : search(definition?.variable ?? name);
  return element("button", { class: classes.filter(Boolean).join(" "), title, onclick: goOrFind }, name);
}

/** Names of a set: first those that the statement is about; values at the beginning are folded. */
function factChips(analysis, names) {
  const isEntry = name => analysis === "reach" && name.endsWith("@entry");
  const shown = page.entriesShown ? names : names.filter(name => !isEntry(name));
  const entries = names.filter(isEntry).length;
  const used = shown.filter(name => isUsedHere(page.chosen, analysis, name));
  const all = used.concat(shown.filter(name => !isUsedHere(page.chosen, analysis, name)));
  const box = element("div", { class: "chips" }, ...shortened(all, CHIPS_AT_FIRST, name => factChip(analysis, name)));
  if (entries) {
    const text = page.entriesShown ? "fold @entry" : `${entries} @entry`;
    box.append(element("button", { class: "chip more", "aria-expanded": page.entriesShown, onclick: toggleEntries }, text));
  }
  if (!names.length) box.append(element("span", { class: "quiet" }, "nothing"));
  return box;
}

function showFacts() {
  const { program, tab } = page;
  if (program.head.language) return;
  if (!program.analyses.length) {
    const how = `--procedure ${page.chosen.procedure} --facts all`;
    const words = `These lines have no facts. Of a large program show those of one procedure: ${how}`;
    byId("analyses").replaceChildren(element("p", { class: "quiet" }, words));
    return;
  }
  const show = showsRounds() ? showRoundHere : showAnalysis;
  byId("analyses").replaceChildren(...(tab === "all" ? program.analyses : [tab]).map(show));
}

function showAnalysis(analysis) {
  const { name, forward, somePath } = ANALYSES[analysis], change = changeAt(page.program, page.chosen, analysis);
  const box = element("div", { class: "analysis", "data-analysis": analysis });
  box.append(element("h3", {}, `${forward ? "↓" : "↑"} ${name} `, element("span", { class: "quiet" }, sizesOfChange(change))));
  if (!change.path) {
    const lacks = forward ? "no path leads here" : "no path from here to the end of main";
    box.append(element("p", { class: "quiet no-path" }, somePath ? `${lacks}: nothing holds` : `${lacks}: everything holds`));
    return box;
  }
  const line = (word, kind, names) =>
    box.append(element("div", { class: "change " + kind }, element("span", {}, word), factChips(analysis, names)));
  if (change.came.length) line("+ came", "came", change.came);
  if (change.went.length) line("− went", "went", change.went);
  const changed = change.came.length || change.went.length;
  if (change.stays.length || !changed) line(change.behind ? "= stays" : "holds", "stays", change.stays);
  const lost = page.chosen.calls ? "no path comes back from the call" : "no path goes on from here to the end of main";
  if (change.isLost) box.append(element("p", { class: "quiet" }, lost));
  return box;
}

function sizesOfChange({ path, before, behind, joined }) {
  if (!path) return "";
  return behind ? `${before.length} before, ${joined ? "≈ " : ""}${behind.length} behind` : `${before.length} here`;
}

function toggleEntries() {
  /** @type {HTMLElement | null} */
  const box = document.activeElement.closest(".analysis");
  page.entriesShown = !page.entriesShown;
  if (showsRounds()) choose(page.chosen);
  showFacts();
  if (box) byId("analyses").querySelector(`[data-analysis=${box.dataset.analysis}] [aria-expanded]`)?.focus();
}

/** Marks which tab of a list is chosen; only that one is in the order of Tab. */
function markTab(list, isChosen) {
  for (const tab of list.children) {
    tab.setAttribute("aria-selected", isChosen(tab));
    tab.tabIndex = isChosen(tab) ? 0 : -1;
  }
}

function chooseTab(name) {
  page.tab = name;
  markTab(byId("tabs"), tab => tab.dataset.tab === name);
  choose(page.chosen);
}

// -- The graph of the chosen point's procedure, laid out anew only for another procedure, stretch, width, way or choice of kinds

const NODE_HEIGHT = 20, LAYER_HEIGHT = 36, CHANNEL_WIDTH = 7, BETWEEN_NODES = 10, LETTER_WIDTH = 6.7;
/** @type {{ key: string, groups: Map<Point, Element>, paths: { edge: object, path: Element }[] } | null} */
let drawnGraph = null;

function drawGraph() {
  const pane = byId("graph"), { chosen, way } = page;
  if (!pane.clientWidth) return;
  const { shown, of } = stretchAround(page.program, chosen), room = pane.clientWidth - 28;
  const round = showsRounds() ? [page.tab, page.round, page.entriesShown] : [];
  const key = [shown[0].point, shown.length, room, way?.remark.point, way?.remark.variable, ...page.shownKinds, ...round].join();
  if (key !== drawnGraph?.key) drawnGraph = { key, ...makeGraph(shown, of, room) };
  for (const [point, group] of drawnGraph.groups) group.classList.toggle("chosen", point === chosen);
  for (const { edge, path } of drawnGraph.paths) path.classList.toggle("near", edge.from.point === chosen || edge.to.point === chosen);
  const group = drawnGraph.groups.get(chosen).getBoundingClientRect(), box = pane.getBoundingClientRect();
  if (group.top < box.top + 30 || group.bottom > box.bottom - 10) pane.scrollTop += group.top - box.top - box.height / 2;
  if (group.left < box.left || group.right > box.right) pane.scrollLeft += group.left - box.left - box.width / 2;
}

function makeGraph(shown, of, room) {
  const plan = layOut(page.program, shown), { procedure } = page.chosen;
  const sizes = sizesOf(plan, room);
  const label = `flow graph of ${procedure}: ${shown.length} points, ${plan.edges.length} edges`;
  const width = sizes.end + plan.right * CHANNEL_WIDTH + 8, height = plan.layers * LAYER_HEIGHT;
  const svg = element("svg", { width, height, role: "img", "aria-label": label }, arrowHead());
  const paths = plan.edges.map(edge => ({ edge, path: drawEdge(svg, sizes, edge) }));
  for (const edge of plan.edges) drawOutcome(svg, sizes, edge);
  const groups = new Map([...plan.nodes.values()].map(node => [node.point, drawNode(svg, sizes, plan, node)]));
  const part = shown.length < of ? `places ${shown[0].place} to ${shown.at(-1).place} of ${of}` : of === 1 ? "1 point" : `${of} points`;
  byId("graph").replaceChildren(element("h2", {}, procedure + " ", element("span", { class: "quiet" }, part)), svg);
  return { groups, paths };
}

/** Where lanes and channels lie, and the middle of each node. */
function sizesOf(plan, room) {
  const lane = (room - 8 - (plan.left + plan.right + 1) * CHANNEL_WIDTH) / plan.lanes;
  const width = Math.max(36, Math.min(190, lane - BETWEEN_NODES));
  const start = (plan.left + 1) * CHANNEL_WIDTH + 4, end = start + plan.lanes * (width + BETWEEN_NODES);
  return {
    width, start, end,
    letters: Math.floor((width - 8) / LETTER_WIDTH),
    x: node => start + node.lane * (width + BETWEEN_NODES) + width / 2,
    y: node => 8 + node.layer * LAYER_HEIGHT,
  };
}

function arrowHead() {
  const place = { viewBox: "0 0 8 8", refX: 8, refY: 4, orient: "auto" };
  const size = { markerWidth: 7, markerHeight: 7, markerUnits: "userSpaceOnUse" };
  return element("defs", {}, element("marker", { id: "arrow", ...place, ...size }, element("path", { d: "M0,0 L8,4 L0,8 z" })));
}

function drawEdge(svg, sizes, edge) {
  const { from, to } = edge, x1 = sizes.x(from), y1 = sizes.y(from) + NODE_HEIGHT, x2 = sizes.x(to), y2 = sizes.y(to);
  const beside = edge.back ? sizes.start - (edge.channel + 1) * CHANNEL_WIDTH : sizes.end - 4 + edge.channel * CHANNEL_WIDTH;
  const d = edge.channel === undefined ? `M${x1},${y1} C${x1},${y1 + 9} ${x2},${y2 - 9} ${x2},${y2}`
    : `M${x1},${y1} v5 H${beside} V${y2 - 7} H${x2 + (edge.back ? -9 : 9)} V${y2}`;
  const name = `${from.point.point}>${to.point.point}`, kind = edge.kind + (page.way?.steps.has(name) ? " way" : "");
  const path = element("path", { d, class: kind, "marker-end": "url(#arrow)", "data-edge": name });
  svg.append(path);
  return path;
}

/** T or F beside an edge of a test: the jump's on its side, the other one across. */
function drawOutcome(svg, sizes, { from, to }) {
  const outcome = outcomeOf(from.point, to.point.point);
  if (outcome === null) return;
  const jumpsLeft = from.out.some(edge => edge.back), jumps = outcome === !from.point.statement.startsWith("ifFalse");
  const x = sizes.x(from) + (jumps === jumpsLeft ? -12 : 12), y = sizes.y(from) + NODE_HEIGHT + 13;
  svg.append(element("text", { class: "outcome", x, y, "text-anchor": "middle" }, outcome ? "T" : "F"));
}

function drawNode(svg, sizes, plan, node) {
  const { point } = node, x = sizes.x(node), y = sizes.y(node), { width, letters } = sizes;
  const leaves = nextPoints(page.program, point).some(next => !plan.nodes.has(next));   // the stretch that is drawn
  const ordinals = page.way?.ordinals.get(point.point), said = saidOf(point), told = shownAtRound(point);
  const statement = point.line === null ? "end" : `${point.line}  ${point.statement}`;
  const text = (leaves ? "↗ " : "") + (told ? `${point.line ?? "end"}  ${textOfSet(told)}` : statement);
  const short = width < 70 ? String(point.line ?? "end") : text.length > letters ? text.slice(0, letters - 1) + "…" : text;
  const inRound = told ? `${told.turn ? " computed-set" : " known-set"}${told.isChanged ? " changed" : ""}` : "";
  const classes = `node ${kindOf(point) ?? "plain"}${ordinals ? " way" : ""}${inRound}`;
  const group = element("g", { class: classes, "data-point": point.point, onclick: () => choose(point) },
    element("title", {}, [told ? statement : text, told && textOfSet(told), said].filter(Boolean).join("\n")),
    element("rect", { class: "box", x: x - width / 2, y, width, height: NODE_HEIGHT, rx: 4 }),
    element("text", { x, y: y + 14, "text-anchor": "middle" }, short));
  if (ordinals || told?.turn) {
    const badge = ordinals ? ordinalText(ordinals) : String(told.turn), wide = badge.length * 6 + 6;
    group.append(element("rect", { class: "badge", x: x - width / 2 - 5, y: y - 6, width: wide, height: 12, rx: 6 }),
      element("text", { class: "ordinal", x: x - width / 2 - 5 + wide / 2, y: y + 3, "text-anchor": "middle" }, badge));
  }
  svg.append(group);
  return group;
}

"##;

pub(crate) fn script_panes<'a>() -> &'a [u8]
    ensures { result.now ≡ script_panes }
{
    SCRIPT_PANES.as_bytes()
}
