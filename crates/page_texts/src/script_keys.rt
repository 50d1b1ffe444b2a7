// The part of the script that moves, searches, follows keys, and fills the page once.

ghost use Rattle.std.specs.Prelude.{◌≡◌};
ghost use Rattle.page_texts.specs.Frame.{script_keys};

const SCRIPT_KEYS: &str = r##"// -- Moving and searching

/** Tells something in the page's head until another point is chosen. */
const say = words => { byId("found").textContent = words; };
const sayFound = () => say(byId("search").value ? `${page.matches.size} found` : "");

function move(by) {
  const step = Math.sign(by), { rows } = page;
  let at = Math.max(0, Math.min(rows.length - 1, page.chosen.row + by));
  while (rows[at] && rows[at].sort !== "point") at += step;
  choose((rows[at] ?? pointRows().at(step < 0 ? 0 : -1)).point);
}

/** Chooses the next point in one direction of which something is true, around the program's ends. */
function goFrom(step, isWanted, none) {
  const { rows } = page;
  for (let far = 1; far <= rows.length; far += 1) {
    const { sort, point } = rows[(page.chosen.row + step * far + rows.length * 2) % rows.length];
    if (sort === "point" && isWanted(point)) {
      choose(point, { jump: true });
      return;
    }
  }
  say(none);
}

/** Marks all points whose line number, or whose statement or label, is this. */
function search(text) {
  if (byId("search").value !== text) byId("search").value = text;
  const line = /^\d+$/.test(text) ? Number(text) : null;
  const hasText = point => [point.statement ?? "end", ...point.labels].some(each => each.includes(text));
  const isFound = point => line === null ? hasText(point) : point.line === line;
  page.matches = new Set(text ? [...page.program.points.values()].filter(isFound) : []);
  sayFound();
  drawRows();
}

/** Where control goes from here: to the one place that is not just the next line, or to the links of several. */
function follow() {
  const { chosen, program } = page, links = word => `[data-control='${word}'] button`;
  const targets = [...new Set(chosen.edges.map(edge => edge.to))].filter(to => program.points.has(to));
  const away = targets.filter(to => to !== chosen.point + 1 || targets.length === 1);
  if (away.length === 1) choose(program.points.get(away[0]), { jump: true });
  else if (away.length) byId("control").querySelector([links("calls"), links("returns to"), links("next")].join()).focus();
  else say("control goes nowhere from here");
}

function goBack() {
  if (page.trail.length) choose(page.trail.pop());
  else say("there is no way back");
}

function goToAround() {
  const link = byId("remarks").querySelector("button");
  if (link) link.focus();
  else say("nothing stands around this line");
}

// -- Theme, panes, kinds, keys

function turnTheme() {
  const root = document.documentElement.dataset, prefersDark = matchMedia("(prefers-color-scheme: dark)").matches;
  const now = root.theme ?? (prefersDark ? "dark" : "light");
  root.theme = now === "dark" ? "light" : "dark";
}

function choosePane(name) {
  document.querySelector("main").dataset.pane = name;
  markTab(byId("panes"), tab => tab.dataset.pane === name);
  drawGraph();
}

function turnPane() {
  const { pane, language } = document.querySelector("main").dataset;
  if (!language) choosePane(pane === "line" ? "graph" : "line");
}

function toggleKind(kind, button) {
  if (!page.shownKinds.delete(kind)) page.shownKinds.add(kind);
  button.setAttribute("aria-pressed", page.shownKinds.has(kind));
  choose(page.chosen);
}

const rowsInView = () => Math.max(1, Math.floor(byId("listing").clientHeight / ROW_HEIGHT) - 2);
const tabNames = () => ["all", ...page.program.analyses];
const pointRows = () => page.rows.filter(row => row.sort === "point");
const nextRemark = step => goFrom(step, point => Boolean(kindOf(point)), "no remark of the kinds that are shown");
const nextMatch = step => goFrom(step, point => page.matches.has(point), "nothing found");

const KEYS = {
  j: () => move(1), ArrowDown: () => move(1), k: () => move(-1), ArrowUp: () => move(-1),
  PageDown: () => move(rowsInView()), PageUp: () => move(-rowsInView()),
  Home: () => choose(pointRows()[0].point), End: () => choose(pointRows().at(-1).point),
  n: () => nextRemark(1), p: () => nextRemark(-1), f: follow, b: goBack, a: goToAround,
  w: turnWays, l: () => walkTo(page.way?.at + 1), ArrowRight: () => walkTo(page.way?.at + 1),
  h: () => walkTo(page.way?.at - 1), ArrowLeft: () => walkTo(page.way?.at - 1), Escape: leaveWay,
  "/": () => byId("search").focus(), r: () => byId("kinds").querySelector("button")?.focus(), e: toggleEntries, t: turnTheme,
  s: turnRounds, ".": () => moveRound(1), ",": () => moveRound(-1), g: turnPane, "?": () => byId("keys").showModal(),
};

function pressInSearch(event) {
  if (event.key === "Enter") nextMatch(event.shiftKey ? -1 : 1);
  if (event.key !== "Escape") return;
  search("");
  byId("listing").focus();
}

/** Left and right in a list of tabs choose the tab beside. */
function pressOnTab(event) {
  const tabs = [...event.target.parentNode.children], step = event.key === "ArrowRight" ? 1 : -1;
  const to = tabs[(tabs.indexOf(event.target) + step + tabs.length) % tabs.length];
  to.click();
  to.focus();
}

function press(event) {
  if (event.target === byId("search")) pressInSearch(event);
  const inField = event.target.matches("input, select") || byId("keys").open;
  const scrolls = /^(Arrow|Page|Home|End)/.test(event.key) && event.target.matches("section, #way-steps");
  if (inField || scrolls || event.ctrlKey || event.metaKey || event.altKey) return;
  if (event.target.matches("[role=tab]") && /^Arrow(Left|Right)$/.test(event.key)) pressOnTab(event);
  else if (/^[0-4]$/.test(event.key) && tabNames()[event.key]) chooseTab(tabNames()[event.key]);
  else if (Object.hasOwn(KEYS, event.key)) KEYS[event.key]();
  else return;
  event.preventDefault();
}

// -- The frame is filled once

function fillHead() {
  const { head, title, points, counts } = page.program, unit = head.language ? "line" : "point";
  const count = (number, word) => `${number} ${word}${number === 1 ? "" : "s"}`;
  document.title = title ? `${title} – tacview` : "tacview";
  byId("title").textContent = byId("title").title = title || "tacview";
  const remarks = [...counts].reduce((sum, [kind, number]) => kind === "doubt" ? sum : sum + number, 0);
  const shown = points.size < head.points ? `${points.size} of ${count(head.points, unit)}` : count(head.points, unit);
  byId("summary").textContent = `${shown}, ${remarks ? count(remarks, "remark") : "no remarks"}`;
  if (head.language) showSource();
  else showSizes(head);
  const told = new Map();   // how many remarks each procedure or file has
  for (const point of points.values()) {
    const here = [...point.remarks.values()].reduce((sum, each) => sum + each.count, 0);
    told.set(point.procedure, (told.get(point.procedure) ?? 0) + here);
  }
  const words = name => head.language ? `${name} (${told.get(name)})` : name;
  byId("procedures").append(...[...told.keys()].map(name => element("option", { value: name }, words(name))));
}

function showSizes({ points, variables, definitions, expressions }) {
  const sizes = { point: points, variable: variables.length, definition: definitions, expression: expressions };
  const words = Object.entries(sizes).map(([word, number]) => `${number} ${word}${number === 1 ? "" : "s"}`);
  byId("sizes").textContent = `The program has ${words.join(", ")}.`;
}

/** Of sources in C there is no graph, and what is certain is less. */
function showSource() {
  document.querySelector("main").dataset.language = page.program.head.language;
  byId("procedures").setAttribute("aria-label", "Go to file");
  byId("certain").textContent = "The remarks are check-c's, which is not verified: docs/C.md says what it claims of C.";
}

/** A button for each kind that there is. */
function fillKinds() {
  const { counts } = page.program, kinds = Object.keys(KINDS).filter(kind => counts.has(kind));
  const makeButton = kind => {
    const properties = { "aria-pressed": true, "data-kind": kind, onclick: event => toggleKind(kind, event.currentTarget) };
    return element("button", properties, element("span", { class: "sample " + kind }), `${KINDS[kind].name} ${counts.get(kind)}`);
  };
  byId("kinds").append(...kinds.map(makeButton));
  byId("kinds").hidden = !kinds.length;
}

function fillTabs() {
  const makeTab = name => {
    const properties = { role: "tab", "data-tab": name, title: ANALYSES[name]?.name ?? "all analyses", "aria-controls": "analyses" };
    return element("button", { ...properties, onclick: () => chooseTab(name) }, name);
  };
  byId("tabs").append(...tabNames().map(makeTab));
  byId("tabs").hidden = !page.program.analyses.length;
}

function listen() {
  const entryOf = name => [...page.program.points.values()].find(point => point.procedure === name);
  byId("procedures").onchange = event => choose(entryOf(event.target.value), { jump: true });
  for (const tab of byId("panes").children) tab.onclick = () => choosePane(tab.dataset.pane);
  byId("search").oninput = event => search(event.target.value);
  byId("theme").onclick = turnTheme;
  byId("help").onclick = () => byId("keys").showModal();
  byId("way-back").onclick = () => walkTo(page.way.at - 1);
  byId("way-on").onclick = () => walkTo(page.way.at + 1);
  byId("way-close").onclick = leaveWay;
  byId("round").oninput = event => goToRound(Number(event.target.value));
  byId("round-back").onclick = () => moveRound(-1);
  byId("round-on").onclick = () => moveRound(1);
  byId("round-switch").onclick = turnRounds;
  byId("skip").onclick = event => { event.preventDefault(); byId("listing").focus(); };
  byId("ruler").onclick = event => {
    const { clientHeight } = byId("ruler"), listing = byId("listing");
    listing.scrollTop = event.offsetY / clientHeight * page.rows.length * ROW_HEIGHT - listing.clientHeight / 2;
  };
  byId("listing").onscroll = () => drawRows();
  document.addEventListener("keydown", press);
  addEventListener("resize", () => {
    drawRows();
    drawGraph();
  });
  addEventListener("hashchange", () => choose(placeAsked().point, { jump: true }));
  addEventListener("beforeprint", () => drawRows({ all: true }));
  addEventListener("afterprint", () => drawRows());
}

/** The line and the analysis that the page's address asks for: page.html#LINE,ANALYSIS. */
function placeAsked() {
  const [line, analysis] = location.hash.slice(1).split(",");
  return { point: page.program.atLine.get(Number(line)), analysis };
}

function start() {
  const began = performance.now();
  page.program = readProgram(byId("lines").textContent);
  page.rows = makeRows(page.program);
  let digits = Math.max(2, String(page.program.source?.length ?? 0).length);
  for (const line of page.program.atLine.keys()) digits = Math.max(digits, String(line).length);
  byId("sheet").style.cssText = `height: ${page.rows.length * ROW_HEIGHT}px; --digits: ${digits}`;
  fillHead();
  fillKinds();
  fillTabs();
  listen();
  const asked = placeAsked();
  page.chosen = asked.point ?? pointRows()[0].point;
  const [first] = page.program.iterations.keys();
  if (first) page.round = 0;
  chooseTab(page.program.analyses.includes(asked.analysis) ? asked.analysis : first ?? "all");
  byId("listing").focus({ preventScroll: true });
  document.documentElement.dataset.opened = String(Math.round(performance.now() - began));
}

try {
  start();
} catch (fault) {
  document.querySelector("main").replaceWith(element("p", { class: "fault", role: "alert" }, `Nothing can be shown: ${fault.message}.`));
  console.error(fault);
}
</script>
</body>
</html>
"##;

pub(crate) fn script_keys<'a>() -> &'a [u8]
    ensures { result.now ≡ script_keys }
{
    SCRIPT_KEYS.as_bytes()
}
