// The part of the script that lays out the graph.

ghost use Rattle.std.specs.Prelude.{◌≡◌};
ghost use Rattle.page_texts.specs.Frame.{script_layout};

const SCRIPT_LAYOUT: &str =
    r##"// ---- The graph's layout: layers by the longest way from the entry, long edges in channels beside them

const GRAPH_POINTS = 300, GRAPH_STRETCH = 60;

/** The points of a procedure that are drawn together: all of them, or of many those around one. */
function stretchAround(program, point) {
  const all = [];
  let each = program.points.get(point.point - point.place);
  while (each && each.procedure === point.procedure) {
    all.push(each);
    each = program.points.get(each.point + 1);
  }
  if (all.length <= GRAPH_POINTS) return { shown: all, of: all.length };
  const start = Math.floor(point.place / GRAPH_STRETCH) * GRAPH_STRETCH;
  return { shown: all.slice(Math.max(0, start - GRAPH_STRETCH), start + 2 * GRAPH_STRETCH), of: all.length };
}

function layOut(program, shown) {
  const nodes = new Map(shown.map(point => [point, { point, out: [], into: [], layer: 0, lane: 0, state: "new" }]));
  const edges = joinNodes(program, nodes);
  giveLayers(nodes);
  giveLanes(nodes);
  const drawn = edges.filter(edge => edge.kind !== "none");
  const left = giveChannels(drawn.filter(edge => edge.back));
  const right = giveChannels(drawn.filter(edge => !edge.back && edge.to.layer > edge.from.layer + 1));
  const most = measure => 1 + Math.max(...[...nodes.values()].map(measure));
  return { nodes, edges: drawn, left, right, layers: most(node => node.layer), lanes: most(node => node.lane) };
}

/** The edges between nodes. What no edge leads to is hung below the node above it, by an edge that is not drawn. */
function joinNodes(program, nodes) {
  const edges = [];
  const join = (from, to, kind) => {
    const edge = { from, to, kind };
    edges.push(edge);
    from.out.push(edge);
    to.into.push(edge);
  };
  for (const node of nodes.values())
    for (const next of nextPoints(program, node.point))
      if (nodes.has(next)) join(node, nodes.get(next), node.point.calls ? "call" : "step");
  let above = null;
  for (const node of nodes.values()) {
    if (above && !node.into.length) join(above, node, "none");
    above = node;
  }
  return edges;
}

function giveLayers(nodes) {
  const order = [];
  for (const root of nodes.values()) depthFirst(root, order);
  for (const node of order.reverse())
    for (const edge of node.out) if (!edge.back) edge.to.layer = Math.max(edge.to.layer, node.layer + 1);
  const last = [...nodes.values()].at(-1);   // a procedure's end stands below all else
  if (last.point.line === null) last.layer = 1 + Math.max(-1, ...[...nodes.values()].filter(node => node !== last).map(node => node.layer));
}

/** Puts nodes behind all that they lead to; an edge to a node that is still open leads back. */
function depthFirst(root, order) {
  if (root.state !== "new") return;
  root.state = "open";
  const stack = [{ node: root, next: 0 }];
  while (stack.length) {
    const top = stack.at(-1), edge = top.node.out[top.next];
    top.next += 1;
    if (!edge) {
      top.node.state = "done";
      order.push(top.node);
      stack.pop();
    } else if (edge.to.state === "open") {
      edge.back = true;
    } else if (edge.to.state === "new") {
      edge.to.state = "open";
      stack.push({ node: edge.to, next: 0 });
    }
  }
}

/** A node stands below the leftmost one that leads to it, if that lane is free. */
function giveLanes(nodes) {
  const layers = [];
  for (const node of nodes.values()) (layers[node.layer] ??= []).push(node);
  for (const layer of layers.filter(Boolean)) {
    for (const node of layer) {
      const lanes = node.into.filter(edge => !edge.back).map(edge => edge.from.lane);
      node.lane = lanes.length ? Math.min(...lanes) : 0;
    }
    layer.sort((one, other) => one.lane - other.lane);
    layer.forEach((node, at) => { if (at) node.lane = Math.max(node.lane, layer[at - 1].lane + 1); });
  }
}

/** Edges side by side have channels of their own, short ones the inner ones. Answers how many there are. */
function giveChannels(edges) {
  const taken = [];
  const spanOf = ({ from, to }) => ({ top: Math.min(from.layer, to.layer), bottom: Math.max(from.layer, to.layer) });
  const lengthOf = ({ from, to }) => Math.abs(from.layer - to.layer);
  for (const edge of edges.sort((one, other) => lengthOf(one) - lengthOf(other))) {
    const span = spanOf(edge);
    edge.channel = taken.findIndex(spans => spans.every(each => span.bottom < each.top || each.bottom < span.top));
    if (edge.channel < 0) edge.channel = taken.push([]) - 1;
    taken[edge.channel].push(span);
  }
  return taken.length;
}

"##;

pub(crate) fn script_layout<'a>() -> &'a [u8]
    ensures { result.now ≡ script_layout }
{
    SCRIPT_LAYOUT.as_bytes()
}
