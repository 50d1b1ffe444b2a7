// The part of the script that works out the sets of rounds, and shows them.

ghost use Rattle.std.specs.Prelude.{◌≡◌};
ghost use Rattle.page_texts.specs.Frame.{script_steps};

const SCRIPT_STEPS: &str = r##"// ---- Rounds: the sets of an iteration, as each round leaves them

/** The sets that were looked at last, and behind which round: from it others are reached round by round.
    @type {{ analysis: string, round: number, sets: Map<number, Set<number>> }} */
let lastRound = { analysis: "", round: 0, sets: new Map() };

/** The sets of an analysis after so many rounds, by point.

    @returns {Map<number, Set<number>>} */
function setsAfter(program, analysis, round) {
  const { rounds } = program.iterations.get(analysis);
  if (lastRound.analysis !== analysis) lastRound = { analysis, round: 0, sets: setsAtStart(program, analysis) };
  const { sets } = lastRound;
  for (; lastRound.round < round; lastRound.round += 1)
    for (const change of rounds[lastRound.round]) applyChange(sets.get(change.point), change);
  for (; lastRound.round > round; lastRound.round -= 1)
    for (const { point, came, went } of rounds[lastRound.round - 1]) applyChange(sets.get(point), { came: went, went: came });
  return sets;
}

function setsAtStart(program, analysis) {
  const { begin, turns, known } = program.iterations.get(analysis);
  const bits = begin === "everything" ? program.head[ANALYSES[analysis].names].keys() : [];
  const all = [...bits], sets = new Map(known.map(({ point, bits: told }) => [point, new Set(told)]));
  for (const point of turns.keys()) sets.set(point, new Set(all));
  return sets;
}

/** @typedef {{ turn: number | undefined, names: string[], came: string[], went: string[], isChanged: boolean }} AtRound
    Of a point: its turn in each round, or none where its set is known; what its set has behind a round; what that round changed. */

/** What a round leaves at a point; 0 is the start, which changes nothing.

    @returns {AtRound} */
function atRound(program, analysis, round, point) {
  const { turns, rounds } = program.iterations.get(analysis), turn = turns.get(point.point);
  const set = setsAfter(program, analysis, round).get(point.point) ?? new Set();
  const change = round ? rounds[round - 1].find(each => each.point === point.point) : undefined;
  const named = bits => namesOf(program, analysis, new Set(bits));
  return {
    turn, names: namesOf(program, analysis, set), came: named(change?.came ?? []), went: named(change?.went ?? []), isChanged: Boolean(change),
  };
}

/** A round in words. */
function wordsOfRound({ begin, rounds, turns }, round) {
  if (!round) return `start: ${begin} at ${turns.size} ${turns.size === 1 ? "point" : "points"} that rounds compute`;
  const count = rounds[round - 1].length;
  const changes = count ? `${count} ${count === 1 ? "set" : "sets"} changed` : "nothing changed, this holds";
  return `round ${round} of ${rounds.length}: ${changes}`;
}

// -- What of them is shown: of the analysis that is chosen, where the lines have its rounds

const iterationShown = () => page.program.iterations.get(page.tab);
const showsRounds = () => page.round !== null && iterationShown() !== undefined;

/** What the round that is shown leaves at a point.

    @returns {AtRound | null} */
const shownAtRound = point => showsRounds() ? atRound(page.program, page.tab, page.round, point) : null;

/** The set of a point in one line: values at the beginning are folded as elsewhere. */
function textOfSet({ names }) {
  const isFolded = name => page.tab === "reach" && !page.entriesShown && name.endsWith("@entry");
  const entries = names.filter(isFolded).length, shown = names.filter(name => !isFolded(name));
  return [...shown, ...(entries ? [`${entries} @entry`] : [])].join(", ") || "nothing";
}

function labelOfRound({ turn, names, came, went }) {
  const told = [turn ? `number ${turn} in each round` : "known from the beginning", `holds ${names.join(", ") || "nothing"}`];
  if (came.length) told.push(`came ${came.join(", ")}`);
  if (went.length) told.push(`went ${went.join(", ")}`);
  return told.join(". ");
}

/** Goes to a round of the analysis that is chosen. */
function goToRound(round) {
  const iteration = iterationShown();
  if (!iteration) {
    say(page.program.iterations.size ? "rounds are of one analysis: choose it" : "this page has no rounds");
    return;
  }
  page.round = Math.max(0, Math.min(iteration.rounds.length, round));
  choose(page.chosen);
}

const moveRound = by => goToRound((page.round ?? iterationShown()?.rounds.length) + by);

/** From rounds to what holds in the end, or back to the start. */
function turnRounds() {
  if (page.round === null || !iterationShown()) goToRound(0);
  else {
    page.round = null;
    choose(page.chosen);
  }
}

function showRounds() {
  const iteration = iterationShown(), isOn = showsRounds();
  byId("rounds").hidden = !page.program.iterations.size;
  if (isOn) page.round = Math.min(page.round, iteration.rounds.length);
  const slider = byId("round"), last = iteration?.rounds.length ?? 0, at = isOn ? page.round : last;
  slider.max = last;
  slider.value = at;
  const words = isOn ? wordsOfRound(iteration, at) : iteration ? "what holds in the end" : "choose one analysis";
  slider.setAttribute("aria-valuetext", words);
  byId("round-now").textContent = words;
  byId("round-switch").setAttribute("aria-pressed", isOn);
  slider.disabled = byId("round-switch").disabled = !iteration;
  byId("round-back").disabled = !iteration || at === 0;
  byId("round-on").disabled = !iteration || at === last;
  if (page.program.iterations.size) setStationWidth(isOn ? String(iteration.turns.size).length + 1 : 0);   // such a page has no ways
}

/** What the round that is shown leaves at the line, and all points that it changed. */
function showRoundHere(analysis) {
  const { name, forward } = ANALYSES[analysis], { turn, names, came, went, isChanged } = shownAtRound(page.chosen);
  const box = element("div", { class: "analysis", "data-analysis": analysis, "data-round": page.round });
  const where = turn ? `number ${turn} in each round` : "known from the beginning";
  box.append(element("h3", {}, `${forward ? "↓" : "↑"} ${name} `, element("span", { class: "quiet" }, `${names.length} here, ${where}`)));
  const line = (word, kind, list) =>
    box.append(element("div", { class: "change " + kind }, element("span", {}, word), factChips(analysis, list)));
  if (came.length) line("+ came", "came", came);
  if (went.length) line("− went", "went", went);
  const stays = names.filter(each => !came.includes(each));
  if (stays.length || !isChanged) line(isChanged ? "= stays" : "holds", "stays", stays);
  const changed = page.round ? iterationShown().rounds[page.round - 1].map(({ point }) => point) : [];
  const links = shortened(changed, POINTS_AT_FIRST, number => pointLink(number));
  if (changed.length) box.append(chipsLine("changed", links, { "data-changed": changed.length }));
  return box;
}

"##;

pub(crate) fn script_steps<'a>() -> &'a [u8]
    ensures { result.now ≡ script_steps }
{
    SCRIPT_STEPS.as_bytes()
}
