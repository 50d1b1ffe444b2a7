// What the page shows before its script runs: the places that the script fills, and the help. Its last line begins the element with the lines.

ghost use Rattle.std.specs.Prelude.{◌≡◌};
ghost use Rattle.page_texts.specs.Frame.{body};

const BODY: &str = r##"</head>
<body>
<a id="skip" href="#listing">To the program's lines</a>
<header>
  <h1 id="title">tacview</h1>
  <span id="summary" class="quiet"></span>
  <select id="procedures" aria-label="Go to procedure"></select>
  <input id="search" type="search" placeholder="Search  /"
    aria-label="Search text or line; Enter goes to the next, Shift Enter to the one before">
  <span id="found" class="quiet" role="status"></span>
  <div id="kinds" role="group" aria-label="Kinds of remarks shown"></div>
  <div id="rounds" role="group" aria-label="Rounds in which the sets come about" hidden>
    <button id="round-switch" title="Rounds, or what holds in the end (s)">rounds</button>
    <button id="round-back" aria-label="The round before" title="The round before (,)">←</button>
    <input id="round" type="range" min="0" step="1" aria-label="Round">
    <button id="round-on" aria-label="The next round" title="The next round (.)">→</button>
    <output id="round-now" for="round"></output>
  </div>
  <button id="theme" aria-label="Dark or light" title="Dark or light (t)">◐</button>
  <button id="help" aria-label="Help: keys and signs" title="Keys and signs (?)">?</button>
</header>
<main data-pane="line">
  <div id="text">
    <div id="listing" role="listbox" tabindex="0" aria-label="The program's lines"><div id="sheet" role="presentation"></div></div>
    <svg id="ruler" aria-hidden="true"><g id="ruler-remarks"></g><g id="ruler-marks"></g></svg>
  </div>
  <div id="panes" role="tablist" aria-label="What is below the text">
    <button role="tab" data-pane="line" aria-controls="line" aria-selected="true">Line</button>
    <button role="tab" data-pane="graph" aria-controls="graph" aria-selected="false" tabindex="-1">Graph</button>
  </div>
  <section id="line" tabindex="0" aria-label="The chosen line: remarks, ways, facts">
    <div id="way" role="region" aria-labelledby="way-title" hidden>
      <header>
        <h2 id="way-title"></h2>
        <nav>
          <button id="way-back" aria-label="One step back on the way" title="Step back (h, ←)">←</button>
          <button id="way-on" aria-label="One step on" title="Step on (l, →)">→</button>
          <button id="way-close" aria-label="Leave the way" title="Leave the way (Esc)">×</button>
        </nav>
      </header>
      <p id="way-now" role="status"></p>
      <ol id="way-steps" aria-label="Steps of the way"></ol>
    </div>
    <h2 id="place"></h2>
    <code id="statement"></code>
    <div id="remarks"></div>
    <div id="control"></div>
    <div id="tabs" role="tablist" aria-label="Analyses"></div>
    <div id="analyses" role="tabpanel" aria-label="What holds before and behind the line"></div>
  </section>
  <section id="graph" tabindex="0" aria-label="Flow graph of the procedure"></section>
</main>
<noscript><p class="fault">This page is a program in JavaScript, which is switched off here.</p></noscript>

<dialog id="keys" aria-labelledby="keys-title">
  <form method="dialog"><button>Close</button></form>
  <h2 id="keys-title">Keys</h2>
  <dl>
    <dt>↓ ↑  j k</dt><dd>next line, line before; also Page, Home, End</dd>
    <dt>n p</dt><dd>next remark, remark before, of the kinds that are shown</dd>
    <dt>w</dt><dd>the way by which a variable may be unset at the line; once more: the next one there, or none</dd>
    <dt>l h  → ←</dt><dd>a step on along the way, a step back; Esc leaves it</dd>
    <dt>a</dt><dd>to the first link of a remark: then Tab, and Enter goes there</dd>
    <dt>f b</dt><dd>follow a jump, into a call, out at an end; back to where you were</dd>
    <dt>0 – 4</dt><dd>all analyses, or one</dd>
    <dt>. ,</dt><dd>the next round of an iteration, the one before, where the page has rounds</dd>
    <dt>s</dt><dd>rounds from the start, or what holds in the end</dd>
    <dt>e</dt><dd>show or fold x@entry, the values at the beginning</dd>
    <dt>/</dt><dd>search a text or a line; Enter, Shift+Enter go through what is found; Esc leaves</dd>
    <dt>r</dt><dd>to the kinds of remarks: Space hides or shows one</dd>
    <dt>g</dt><dd>line or graph, in a narrow window</dd>
    <dt>t  ?</dt><dd>dark or light; this help</dd>
  </dl>
  <h2>Colours and signs</h2>
  <dl>
    <dt><span class="row unset">15</span></dt><dd>a variable may be used before it is set</dd>
    <dt><span class="row dead">12</span></dt><dd>an assignment is dead: no execution reads its value</dd>
    <dt><span class="row never_reached">17</span></dt><dd>no valid path leads there; <i>already computed</i>, <i>very busy</i> and
      <i>held back</i> (not read, but what follows may never end) have no colour</dd>
    <dt><span class="row way">1 2 3</span></dt><dd>the steps of the way, in the margin and at the graph's nodes</dd>
    <dt><span class="row changed"><span class="set">x</span></span></dt><dd>a set that the round changed; in the margin and at the graph's
      nodes the order in which a round takes the points, – where a set is known from the beginning</dd>
    <dt>◆</dt><dd>a line that stands around the line's remarks: where the value is overwritten, was or will be evaluated, where control
      goes instead</dd>
    <dt>● ○</dt><dd>a line that the facts speak of and the statement is about; one that they only speak of: definitions that reach the
      line, uses of live variables, lines that compute an expression</dd>
    <dt>↓ ↑</dt><dd>forward facts change from before to behind a line (came, went, stays), backward ones from behind to before</dd>
    <dt>≈</dt><dd>what holds at the next point: other ways may join there</dd>
    <dt>T F</dt><dd>in the graph, where control goes if the test holds, and if it does not; dotted: a call, to the point behind it; ↗ an
      edge leaves the part that is drawn</dd>
  </dl>
  <h2>What is certain</h2>
  <p id="certain">Remarks, facts at points, ways and what stands around remarks are lines of <code>tacview</code>, whose program is proved to write
    just what its definitions say, where it was proved and not only built. What came, went and stays, what holds <i>behind</i> a call,
    which lines the facts speak of, and the graph's layout are worked out by this page from those lines, which is not proved.</p>
  <p id="sizes" class="quiet"></p>
</dialog>

<script type="application/x-ndjson" id="lines">
"##;

pub(crate) fn body<'a>() -> &'a [u8]
    ensures { result.now ≡ body }
{
    BODY.as_bytes()
}
