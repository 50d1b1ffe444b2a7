// The head of the page: what it may load, and its style.

ghost use Rattle.std.specs.Prelude.{◌≡◌};
ghost use Rattle.page_texts.specs.Frame.{style};

const STYLE: &str = r##"<!doctype html>
<html lang="en">
<head>
<meta charset="utf-8">
<meta name="viewport" content="width=device-width, initial-scale=1">
<meta http-equiv="Content-Security-Policy"
  content="default-src 'none'; style-src 'unsafe-inline'; script-src 'unsafe-inline'; img-src data:">
<link rel="icon" href="data:,">
<title>tacview</title>
<style>
:root {
  color-scheme: light dark;
  --paper: light-dark(#fff, #16181d);
  --raised: light-dark(#f4f5f7, #1f2229);
  --line: light-dark(#d5d8de, #363a44);
  --border: light-dark(#868d99, #737a87);
  --ink: light-dark(#1b1d22, #dfe2e8);
  --quiet: light-dark(#5a616d, #9ba2b0);
  --link: light-dark(#0a58b8, #7db5ff);
  --chosen: light-dark(#dbe9ff, #24385a);
  --match: light-dark(#ffe9a8, #5c4a10);
  --unset: light-dark(#b01212, #ff8f87);
  --unset-back: light-dark(#ffe6e4, #45191b);
  --dead: light-dark(#6e5200, #e8c55c);
  --dead-back: light-dark(#fff3c4, #3d3413);
  --dead-mark: light-dark(#d9a900, #e8c55c);
  --unreached-back: light-dark(#e9eaed, #2a2c32);
  --unreached-ink: light-dark(#545a65, #a5acba);
  --came: light-dark(#0e6229, #6bd48a);
  --went: light-dark(#a1310e, #ff9b75);
  --way: light-dark(#6a2bb0, #c79bff);
  --way-back: light-dark(#f1e6ff, #37264f);
  --code: ui-monospace, "DejaVu Sans Mono", Menlo, Consolas, monospace;
  --row: 22px;
}
:root[data-theme=light] { color-scheme: light; }
:root[data-theme=dark] { color-scheme: dark; }

* { box-sizing: border-box; }
html, body { height: 100%; margin: 0; }
body {
  display: grid;
  grid-template: auto minmax(0, 1fr) / minmax(0, 1fr);
  background: var(--paper);
  color: var(--ink);
  font: 14px/1.45 system-ui, "DejaVu Sans", sans-serif;
}
code, .row, .chip, svg text { font-family: var(--code); font-size: 13px; }
h1 { font-size: 15px; margin: 0; max-width: 20em; overflow: hidden; text-overflow: ellipsis; white-space: nowrap; }
h2 { font-size: 14px; margin: 0; overflow-wrap: anywhere; }
h3 { font-size: 13px; margin: 0; }
p { margin: 3px 0; }
.quiet { color: var(--quiet); font-weight: normal; }
.fault { padding: 2em; color: var(--unset); font-size: 16px; }
[hidden] { display: none !important; }

button, select, input {
  font: inherit;
  font-size: 13px;
  color: inherit;
  background: var(--paper);
  border: 1px solid var(--border);
  border-radius: 5px;
  padding: 2px 8px;
  min-height: 26px;
}
button { cursor: pointer; }
:focus-visible { outline: 2px solid var(--link); outline-offset: 1px; }
section:focus-visible { outline-offset: -2px; }
#skip { position: absolute; left: -99em; z-index: 2; }
#skip:focus { left: 8px; top: 6px; background: var(--paper); color: var(--link); padding: 4px 8px; }

/* The head: what is shown, searching, which kinds of remarks count. */
header {
  display: flex;
  flex-wrap: wrap;
  gap: 6px 10px;
  align-items: center;
  padding: 6px 10px;
  background: var(--raised);
  border-bottom: 1px solid var(--line);
}
#procedures { max-width: 14em; }
#search { width: 12em; }
#kinds { display: flex; flex-wrap: wrap; gap: 4px; }
#kinds button { white-space: nowrap; }
#kinds button[aria-pressed=false] { color: var(--quiet); text-decoration: line-through; background: none; border-style: dashed; }
#rounds { display: flex; flex-wrap: wrap; gap: 4px 6px; align-items: center; min-width: 0; }
#rounds [aria-pressed=true] { background: var(--chosen); border-color: var(--link); }
#round { width: 12em; padding: 0; accent-color: var(--link); }
#round-now { min-width: 15em; font-size: 13px; }
#theme { margin-left: auto; }
.sample {
  display: inline-block;
  width: .8em;
  height: .8em;
  margin-right: .4em;
  border: 1px solid var(--border);
  vertical-align: -1px;
}
.sample.unset { background: var(--unset); }
.sample.dead { background: var(--dead-mark); }
.sample.never_reached { background: light-dark(#b9bdc6, #666c78); }
.sample:is(.computed, .busy, .doubt) { display: none; }

main {
  display: grid;
  grid-template-columns: minmax(0, 1fr) minmax(0, 400px) minmax(0, 330px);
  min-height: 0;
}
main > * { min-height: 0; min-width: 0; }
main[data-language] { grid-template-columns: minmax(0, 1fr) minmax(0, 400px); }
main[data-language] :is(#graph, #panes) { display: none; }
main > section { overflow: auto; border-left: 1px solid var(--line); padding: 10px 12px; position: relative; }
#panes { display: none; }

/* The text: rows of one height, of which those in view are there. */
#text { position: relative; }
#listing { position: absolute; inset: 0 12px 0 0; overflow: auto; }
#listing:focus-visible { outline: none; }
#listing:focus-visible .row[aria-selected=true] { outline: 2px solid var(--link); outline-offset: -2px; }
#sheet { position: relative; min-width: 100%; }
.row {
  position: absolute;
  left: 0;
  right: 0;
  height: var(--row);
  line-height: var(--row);
  display: flex;
  white-space: pre;
  contain: content;
}
.row[role=option] { cursor: pointer; }
.row .stations {
  flex: none;
  width: calc(var(--stations, 0) * 1ch);
  overflow: hidden;
  text-align: right;
  color: var(--way);
  font-weight: 700;
}
.row .mark { flex: none; width: 18px; text-align: center; color: var(--link); }
.row .number { flex: none; width: calc(var(--digits) * 1ch + 1.5em); padding-right: 1.1em; text-align: right; color: var(--quiet); }
.row code { flex: 0 1 auto; min-width: 9em; overflow: hidden; text-overflow: ellipsis; }
.row .tag {
  flex: 0 4 auto;
  min-width: 6em;
  margin-left: 1em;
  overflow: hidden;
  text-overflow: ellipsis;
  color: var(--way);
  font-size: 12px;
}
.row .said {
  flex: 1 1 0;
  min-width: 3em;
  margin-left: 2em;
  padding-right: 8px;
  overflow: hidden;
  text-overflow: ellipsis;
  font-size: 12px;
  color: var(--quiet);
}
.row .set {
  flex: 3 1 0;
  min-width: 0;
  margin-left: 1.2em;
  overflow: hidden;
  text-overflow: ellipsis;
  font-size: 12px;
}
.row:is(.computed-set, .known-set) code { flex: 0 0 min(20em, 38%); }
.row.known-set .set { color: var(--quiet); font-style: italic; }
.row.changed .set { color: var(--came); font-weight: 700; }
.row.changed .stations { text-decoration: underline; }
.row.procedure { background: var(--raised); font-weight: 600; }
.row:is(.label, .source) { color: var(--quiet); }
.row:is(.procedure, .label, .source) .name { overflow: hidden; text-overflow: ellipsis; }
.row.way { background: var(--way-back); }
.row.never_reached { background: var(--unreached-back); }
.row.never_reached :is(code, .number, .said) { color: var(--unreached-ink); }
.row.dead { background: var(--dead-back); }
.row.dead :is(.said, .number) { color: var(--dead); }
.row.unset { background: var(--unset-back); }
.row.unset :is(.said, .number) { color: var(--unset); }
.row.match code { background: var(--match); color: var(--ink); }
.row[aria-selected=true] { box-shadow: inset 4px 0 var(--link), inset 0 0 0 1px var(--link); }
.row:is(.plain, .computed, .busy, .doubt)[aria-selected=true] { background: var(--chosen); }
.row.current .stations { background: var(--way); color: var(--paper); }
#ruler { position: absolute; right: 0; top: 0; width: 12px; height: 100%; background: var(--raised); cursor: pointer; }
#ruler .unset { fill: var(--unset); }
#ruler .dead { fill: var(--dead-mark); }
#ruler .never_reached { fill: var(--quiet); }
#ruler .way { fill: var(--way); }
#ruler :is(.mark, .chosen) { fill: var(--link); }
#ruler .seen { fill: var(--quiet); opacity: .25; }

/* The line: its remarks, ways and facts. */
#statement { display: block; margin: 4px 0; font-size: 15px; overflow-wrap: anywhere; }
.remark { border-left: 3px solid var(--border); padding-left: 8px; margin: 6px 0; }
.remark .sentence { font-weight: 600; overflow-wrap: anywhere; }
.remark.unset { border-color: var(--unset); }
.remark.unset .sentence { color: var(--unset); }
.remark.dead { border-color: var(--dead-mark); }
.remark.dead .sentence { color: var(--dead); }
.change { display: grid; grid-template-columns: 5.2em minmax(0, 1fr); gap: 4px; margin-top: 5px; }
.around .change, #control .change { grid-template-columns: minmax(0, auto) minmax(0, 1fr); }
#control { display: flex; flex-wrap: wrap; gap: 2px 20px; margin-top: 6px; }
#control .change { display: flex; max-width: 100%; }
.chips { display: flex; flex-wrap: wrap; gap: 3px; min-width: 0; }
.chip {
  max-width: 100%;
  white-space: nowrap;
  border: 1px solid var(--border);
  border-radius: 4px;
  padding: 0 5px;
  min-height: 0;
  font-size: 12px;
  line-height: 19px;
  background: none;
  overflow: hidden;
  text-overflow: ellipsis;
}
.chip.place { color: var(--link); }
.chip.used { font-weight: 700; border-width: 2px; line-height: 17px; border-color: var(--link); }
.came, .came .chip { color: var(--came); }
.went, .went .chip { color: var(--went); }
:is(.came, .went) .chip { border-color: currentcolor; }
.went .chip:not(.more) { text-decoration: line-through; }
.change .chip.more { border-style: dashed; color: var(--quiet); }
[role=tablist] { display: flex; flex-wrap: wrap; gap: 4px; margin: 10px 0; }
[role=tab][aria-selected=true] { background: var(--chosen); border-color: var(--link); }
#analyses > .quiet { margin-top: 10px; }
.analysis { border-top: 1px solid var(--line); padding: 7px 0; }

/* A way: from the beginning of main to what may be unset. */
#way { border: 1px solid var(--way); border-radius: 6px; padding: 6px 8px; margin-bottom: 10px; }
#way header { background: none; border: 0; padding: 0; gap: 4px 6px; justify-content: space-between; }
#way-title { color: var(--way); }
#way-now, #way-steps { overflow-wrap: anywhere; }
#way-steps { list-style: none; margin: 6px 0 0; padding: 0; max-height: 15em; overflow: auto; }
#way-steps button {
  display: grid;
  grid-template-columns: calc(var(--stations, 2) * 1ch + 4px) minmax(0, 1fr);
  gap: 8px;
  width: 100%;
  border: 0;
  padding: 1px 4px;
  min-height: 0;
  text-align: left;
  background: none;
}
#way-steps .place { color: var(--link); font-family: var(--code); font-size: 12px; }
#way-steps .ordinal { color: var(--way); font-weight: 700; text-align: right; font-family: var(--code); font-size: 12px; }
#way-steps [aria-current] { background: var(--way-back); box-shadow: inset 3px 0 var(--way); }

/* The graph. */
#graph svg { display: block; margin-top: 8px; }
#graph svg { contain: content; }
#graph .box { fill: var(--paper); stroke: var(--quiet); }
#graph g { cursor: pointer; }
#graph text { fill: var(--ink); font-size: 11px; pointer-events: none; white-space: pre; }
#graph .never_reached .box { fill: var(--unreached-back); stroke: var(--line); }
#graph .dead .box { fill: var(--dead-back); stroke: var(--dead); }
#graph .unset .box { fill: var(--unset-back); stroke: var(--unset); }
#graph .way .box { stroke: var(--way); stroke-width: 2; }
#graph .chosen .box { stroke: var(--link); stroke-width: 3; }
#graph :is(.plain, .computed, .busy, .doubt).chosen .box { fill: var(--chosen); }
#graph .known-set .box { stroke-dasharray: 4 3; }
#graph .changed .box { stroke: var(--came); stroke-width: 2.4; }
#graph .changed.chosen .box { stroke: var(--link); stroke-width: 3; }
#graph .badge { fill: var(--way); stroke: none; }
#graph .ordinal { fill: var(--paper); font-size: 9px; font-weight: 700; }
#graph path { fill: none; stroke: var(--quiet); stroke-width: 1.2; }
#graph .call { stroke-dasharray: 2 3; }
#graph .near { stroke: var(--link); stroke-width: 2.2; }
#graph path.way { stroke: var(--way); stroke-width: 2.6; }
#graph .outcome { fill: var(--quiet); font-size: 10px; }
#graph marker path { fill: var(--quiet); stroke: none; }

dialog {
  max-width: min(44em, 94vw);
  max-height: 90vh;
  color: inherit;
  background: var(--paper);
  border: 1px solid var(--border);
  border-radius: 8px;
}
dialog dl { display: grid; grid-template-columns: minmax(5em, auto) 1fr; gap: 3px 14px; margin: 8px 0; }
dialog dt { font-family: var(--code); font-size: 12px; }
dialog h2 { margin-top: 10px; }
dialog form { position: sticky; top: 0; float: right; }
dialog .row { position: static; display: inline-flex; padding: 0 6px; height: 20px; line-height: 20px; }
dd { margin: 0; }

@media (max-width: 1000px) {
  main { grid-template: minmax(0, 11fr) auto minmax(0, 9fr) / minmax(0, 1fr); }
  main[data-language] { grid-template: minmax(0, 11fr) minmax(0, 9fr) / minmax(0, 1fr); }
  main > section { border-left: 0; padding: 6px 10px; }
  #panes { display: flex; margin: 0; padding: 4px 10px; background: var(--raised); border-block: 1px solid var(--line); }
  main[data-pane=line] #graph, main[data-pane=graph] #line { display: none; }
  #summary { display: none; }
  h1 { max-width: 8em; }
  #search { width: 6em; flex: 1; }
  #rounds { width: 100%; order: 2; }
  #round { flex: 1; min-width: 5em; }
  #round-now { min-width: 0; width: 100%; }
  #kinds { flex-wrap: nowrap; overflow-x: auto; width: 100%; order: 1; padding: 3px; }
  #procedures { max-width: 7em; }
  .row .said { margin-left: 1em; }
  .row .tag { margin-left: .7em; }
  .row .number { width: calc(var(--digits) * 1ch + 1em); padding-right: .8em; }
  #way-steps { max-height: 8.5em; }
}
@media (max-width: 560px) {
  #found { font-size: 12px; }
  .row .said { font-size: 11px; }
}

/* On paper: the whole text, then the line that is chosen, then the graph of its procedure. */
@media print {
  :root { color-scheme: light; }
  html, body, main { display: block; height: auto; }
  body > header > :not(h1, #summary), #skip, #ruler, #panes, #tabs, #way nav { display: none !important; }
  #summary { display: inline; }
  main > section, #listing { position: static; overflow: visible; border: 0; }
  main[data-pane] #line, main:not([data-language]) #graph { display: block; }
  #sheet { height: auto !important; }
  .row { position: static; break-inside: avoid; }
  .row, .chip, rect { print-color-adjust: exact; -webkit-print-color-adjust: exact; }
  #way-steps { max-height: none; }
  #line { margin-top: 1em; border-top: 1px solid var(--line); }
  .analysis, .remark, #graph svg { break-inside: avoid; }
}
</style>
"##;

pub(crate) fn style<'a>() -> &'a [u8]
    ensures { result.now ≡ style }
{
    STYLE.as_bytes()
}
