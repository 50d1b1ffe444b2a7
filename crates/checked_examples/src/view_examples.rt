//! Both texts over facts that are written out by hand, checked by computing them.

ghost use Rattle.std.specs.Prelude.{◌≡◌, ◌++◌, [], ◌∷◌, flat_map, codes};
ghost use Rattle.checked_examples.specs.ProgramExamples.{adds_to_itself, calls_endless, calls_itself};
ghost use Rattle.checked_examples.specs.WorkedTexts.{known_of_endless_callee, known_of_sum};
ghost use Rattle.flow_views.specs.Dots.{cluster, dot_of, edge_lines, label_text, node};
ghost use Rattle.point_sets.specs.SetLines.{set_lines};
ghost use Rattle.flow_views.specs.Json.{json_of};
ghost use Rattle.text_pieces.specs.Strings.{escaped, quoted};
ghost use Rattle.flow_views.specs.Views.{shown_points};
ghost use Rattle.checked_examples.specs.WorkedViews.{behind_with_entry, behind_without_entry, changing_with_entry, changing_without_entry};
ghost use Rattle.checked_examples.specs.WorkedViews.{first_alone, hovering, plain};
ghost use Rattle.checked_examples.specs.WorkedViews.{reach_and_live, second_alone};

/// A quote and a backslash have a backslash before them, and nothing else has.
pub fn string_examples()
    ensures plain { escaped (codes "a@entry << 7") ≡ codes "a@entry << 7" }
    ensures special { escaped (codes "\"a\\l\\") ≡ codes "\\\"a\\\\l\\\\" }
    ensures none { quoted [] ≡ codes "\"\"" }
    ensures between_quotes { quoted (codes "say \"b\"") ≡ codes "\"say \\\"b\\\"\"" }
{}

/// Pictures: remarks, facts and marks; points that are doubtful or never reached; a procedure that calls itself, alone.
pub fn dot_examples()
    ensures marks { dot_of adds_to_itself known_of_sum reach_and_live
        ≡ codes "digraph \"tacflow\" {\n  graph [fontname=\"monospace\", labeljust=l];\n"
        ++ codes "  node [shape=box, fontname=\"monospace\", fontsize=11];\n  edge [class=\"step\", fontname=\"monospace\", fontsize=10];\n"
        ++ codes "  subgraph \"cluster_0\" {\n    id=\"procedure0\";\n    class=\"procedure\";\n    label=\"main\";\n"
        ++ codes "    0 [id=\"point0\", class=\"point unset dead\", label=\"2: x = x + y\\lx may be used before it is set\\l"
        ++ codes "y may be used before it is set\\lassignment to x is "
        ++ codes "dead\\lreach: x@entry, y@entry\\llive: x, y\\l\", color=red, fontcolor=red, style=filled, fillcolor=khaki];\n"
        ++ codes "    1 [id=\"point1\", class=\"point\", label=\"end of main\\lreach: y@entry, x@2\\llive: -\\l\"];\n  }\n  0 -> 1;\n}\n" }
    ensures endless { dot_of calls_endless known_of_endless_callee plain
        ≡ codes "digraph \"tacflow\" {\n  graph [fontname=\"monospace\", labeljust=l];\n"
        ++ codes "  node [shape=box, fontname=\"monospace\", fontsize=11];\n  edge [class=\"step\", fontname=\"monospace\", fontsize=10];\n"
        ++ codes "  subgraph \"cluster_0\" {\n    id=\"procedure0\";\n    class=\"procedure\";\n    label=\"main\";\n"
        ++ codes "    0 [id=\"point0\", class=\"point doubtful\", label=\"2: call f\\l\", peripheries=2];\n"
        ++ codes "    1 [id=\"point1\", class=\"point unreached\", label=\"3: a = b + c\\lnever reached\\l\", style=filled, fillcolor=grey80];\n"
        ++ codes "    2 [id=\"point2\", class=\"point unreached\", label=\"end of main\\l\", style=filled, fillcolor=grey80];\n  }\n"
        ++ codes "  subgraph \"cluster_1\" {\n    id=\"procedure1\";\n    class=\"procedure\";\n    label=\"f\";\n"
        ++ codes "    3 [id=\"point3\", class=\"point doubtful\", label=\"L:\\l6: goto L\\l\", peripheries=2];\n"
        ++ codes "    4 [id=\"point4\", class=\"point unreached\", label=\"end of f\\l\", style=filled, fillcolor=grey80];\n  }\n"
        ++ codes "  0 -> 3 [class=\"call\", style=dashed, color=grey60, fontcolor=grey40, constraint=false, xlabel=\"call 2\"];\n"
        ++ codes "  0 -> 1 [class=\"passed\", style=dotted, arrowhead=none];\n  1 -> 2;\n  3 -> 3;\n"
        ++ codes "  4 -> 1 [class=\"return\", style=dashed, color=grey60, fontcolor=grey40, constraint=false, xlabel=\"return 2\"];\n}\n" }
    ensures first { dot_of calls_endless known_of_endless_callee first_alone
        ≡ codes "digraph \"tacflow\" {\n  graph [fontname=\"monospace\", labeljust=l];\n"
        ++ codes "  node [shape=box, fontname=\"monospace\", fontsize=11];\n  edge [class=\"step\", fontname=\"monospace\", fontsize=10];\n"
        ++ codes "  subgraph \"cluster_0\" {\n    id=\"procedure0\";\n    class=\"procedure\";\n    label=\"main\";\n"
        ++ codes "    0 [id=\"point0\", class=\"point doubtful\", label=\"2: call f\\l\", peripheries=2];\n"
        ++ codes "    1 [id=\"point1\", class=\"point unreached\", label=\"3: a = b + c\\lnever reached\\l\", style=filled, fillcolor=grey80];\n"
        ++ codes "    2 [id=\"point2\", class=\"point unreached\", label=\"end of main\\l\", style=filled, fillcolor=grey80];\n  }\n"
        ++ codes "  0 -> 1 [class=\"passed\", style=dotted, arrowhead=none];\n"
        ++ codes "  1 -> 2;\n}\n" }
    ensures recursive { flat_map (edge_lines calls_itself second_alone) (shown_points calls_itself second_alone)
        ≡ codes "  4 -> 5 [label=\"F\"];\n  4 -> 7 [label=\"T\"];\n"
        ++ codes "  5 -> 4 [class=\"call\", style=dashed, color=grey60, fontcolor=grey40, constraint=false, xlabel=\"call 8\"];\n"
        ++ codes "  5 -> 6 [class=\"passed\", style=dotted, arrowhead=none];\n  6 -> 7;\n"
        ++ codes "  7 -> 6 [class=\"return\", style=dashed, color=grey60, fontcolor=grey40, constraint=false, xlabel=\"return 8\"];\n" }
{}

/// Facts on both sides of a statement: with the dummy definitions; and without them, in whole clusters, where a call has none behind it, nothing
/// leads to a statement, or a loop leads to itself.
pub fn behind_examples()
    ensures sum { label_text adds_to_itself known_of_sum behind_with_entry 0
        ≡ codes "2: x = x + y\\lx may be used before it is set\\ly may be used before it is set\\lassignment to x is dead\\l"
        ++ codes "reach: x@entry, y@entry\\lreach behind: y@entry, x@2\\llive: x, y\\llive behind: -\\l"
        ++ codes "avail: -\\lavail behind: -\\lbusy: x + y\\lbusy behind: -\\l" }
    ensures hidden { label_text adds_to_itself known_of_sum behind_without_entry 1
        ≡ codes "end of main\\lreach: x@2\\llive: -\\lavail: -\\lbusy: -\\l" }
    ensures caller { cluster calls_endless known_of_endless_callee behind_without_entry 0
        ≡ codes "  subgraph \"cluster_0\" {\n    id=\"procedure0\";\n    class=\"procedure\";\n    label=\"main\";\n"
        ++ codes "    0 [id=\"point0\", class=\"point doubtful\", label=\"2: call f\\lreach: -\\llive: -\\lavail: -\\lbusy: b + c\\l"
        ++ codes "\", peripheries=2];\n"
        ++ codes "    1 [id=\"point1\", class=\"point unreached\", label=\"3: a = b + c\\lnever reached\\lreach: -\\lreach behind: -\\l"
        ++ codes "live: b, c\\llive behind: -\\l"
        ++ codes "avail: b + c\\lavail behind: b + c\\lbusy: b + c\\lbusy behind: -\\l\", style=filled, fillcolor=grey80];\n"
        ++ codes "    2 [id=\"point2\", class=\"point unreached\", label=\"end of main\\lreach: -\\llive: -\\lavail: b + c\\lbusy: -\\l"
        ++ codes "\", style=filled, fillcolor=grey80];\n  }\n" }
    ensures callee { cluster calls_endless known_of_endless_callee behind_without_entry 1
        ≡ codes "  subgraph \"cluster_1\" {\n    id=\"procedure1\";\n    class=\"procedure\";\n    label=\"f\";\n"
        ++ codes "    3 [id=\"point3\", class=\"point doubtful\", label=\"L:\\l6: goto L\\lreach: -\\lreach behind: -\\llive: -\\l"
        ++ codes "live behind: -\\l"
        ++ codes "avail: -\\lavail behind: -\\lbusy: b + c\\lbusy behind: b + c\\l\", peripheries=2];\n"
        ++ codes "    4 [id=\"point4\", class=\"point unreached\", label=\"end of f\\lreach: -\\llive: b, c\\lavail: b + c\\l"
        ++ codes "busy: b + c\\l\", style=filled, fillcolor=grey80];\n  }\n" }
{}

/// What comes and what goes from point to point, and through a statement: with the dummy definitions and without them; and at the first point of a
/// procedure, where all that holds came.
pub fn change_examples()
    ensures sum { label_text adds_to_itself known_of_sum changing_with_entry 0
        ≡ codes "2: x = x + y\\lx may be used before it is set\\ly may be used before it is set\\lassignment to x is dead\\l"
        ++ codes "reach came: x@entry, y@entry\\lreach came behind: x@2\\lreach went behind: x@entry\\llive came: x, y\\l"
        ++ codes "live went behind: x, y\\lbusy came: x + y\\lbusy went behind: x + y\\l" }
    ensures end { label_text adds_to_itself known_of_sum changing_with_entry 1
        ≡ codes "end of main\\lreach came: x@2\\lreach went: x@entry\\llive went: x, y\\lbusy went: x + y\\l" }
    ensures hidden { label_text adds_to_itself known_of_sum changing_without_entry 1
        ≡ codes "end of main\\lreach came: x@2\\llive went: x, y\\lbusy went: x + y\\l" }
    ensures first { label_text calls_endless known_of_endless_callee changing_without_entry 3
        ≡ codes "L:\\l6: goto L\\lbusy came: b + c\\l" }
{}

/// Sets in lines: a name that ends where a line does with its comma, one sign more, a name that is longer than a line, and no names.
pub fn line_examples()
    ensures full { set_lines (codes "live: ") (codes "aaaaaaaaaaaaaaaaaaaaaaaa" ∷ codes "bbbbbbbbbbbbbbbbbbbbbbbbbbb" ∷ codes "c" ∷ [])
        ≡ codes "live: aaaaaaaaaaaaaaaaaaaaaaaa, bbbbbbbbbbbbbbbbbbbbbbbbbbb," ∷ codes "  c" ∷ [] }
    ensures one_more { set_lines (codes "live: ") (codes "aaaaaaaaaaaaaaaaaaaaaaaa" ∷ codes "bbbbbbbbbbbbbbbbbbbbbbbbbbbb" ∷ codes "c" ∷ [])
        ≡ codes "live: aaaaaaaaaaaaaaaaaaaaaaaa," ∷ codes "  bbbbbbbbbbbbbbbbbbbbbbbbbbbb, c" ∷ [] }
    ensures long { set_lines (codes "live: ") (codes "a" ∷ codes "dddddddddddddddddddddddddddddddddddddddddddddddddddddddddddddddd" ∷ codes "e" ∷ [])
        ≡ codes "live: a," ∷ codes "  dddddddddddddddddddddddddddddddddddddddddddddddddddddddddddddddd," ∷ codes "  e" ∷ [] }
    ensures none { set_lines (codes "live: ") [] ≡ codes "live: -" ∷ [] }
{}

/// Facts that stand in a tooltip, and not in the node.
pub fn hover_examples()
    ensures { node adds_to_itself known_of_sum hovering 1
        ≡ codes "    1 [id=\"point1\", class=\"point\", label=\"end of main\\l\", tooltip=\"reach: y@entry, x@2\\llive: -\\l\"];\n" }
{}

/// Lines of JSON: sets and remarks; one procedure of two, and the other.
pub fn json_examples()
    ensures sets { json_of adds_to_itself known_of_sum reach_and_live
        ≡ codes "{\"type\":\"program\",\"version\":1,\"points\":2,\"procedures\":[\"main\"],\"variables\":[\"x\",\"y\"],\"definitions\":3,"
        ++ codes "\"expressions\":1}\n"
        ++ codes "{\"type\":\"point\",\"point\":0,\"procedure\":\"main\",\"place\":0,\"line\":2,\"first\":11,\"last\":19,"
        ++ codes "\"labels\":[],\"statement\":\"x = x + y\",\"doubtful\":false,\"edges\":[{\"kind\":\"step\",\"to\":1}],\"reach\":{\"path\":true,\"bits\":[0,1],"
        ++ codes "\"names\":[\"x@entry\",\"y@entry\"]},\"live\":{\"path\":true,\"bits\":[0,1],\"names\":[\"x\",\"y\"]}}\n"
        ++ codes "{\"type\":\"point\",\"point\":1,\"procedure\":\"main\",\"place\":1,\"line\":null,\"first\":null,\"last\":null,"
        ++ codes "\"labels\":[],\"statement\":null,\"doubtful\":false,\"edges\":[],\"reach\":{\"path\":true,\"bits\":[1,2],\"names\":[\"y@entry\",\"x@2\"]},"
        ++ codes "\"live\":{\"path\":true,\"bits\":[],\"names\":[]}}\n"
        ++ codes "{\"type\":\"remark\",\"point\":0,\"line\":2,\"first\":11,\"last\":19,\"kind\":\"unset\",\"variable\":\"x\"}\n"
        ++ codes "{\"type\":\"remark\",\"point\":0,\"line\":2,\"first\":11,\"last\":19,\"kind\":\"unset\",\"variable\":\"y\"}\n"
        ++ codes "{\"type\":\"remark\",\"point\":0,\"line\":2,\"first\":11,\"last\":19,\"kind\":\"dead\",\"variable\":\"x\"}\n{\"type\":\"end\",\"points\":2}\n" }
    ensures first { json_of calls_endless known_of_endless_callee first_alone
        ≡ codes "{\"type\":\"program\",\"version\":1,\"points\":5,\"procedures\":[\"main\",\"f\"],\"variables\":[\"a\",\"b\",\"c\"],\"definitions\":4,"
        ++ codes "\"expressions\":1}\n"
        ++ codes "{\"type\":\"point\",\"point\":0,\"procedure\":\"main\",\"place\":0,\"line\":2,\"first\":11,\"last\":16,"
        ++ codes "\"labels\":[],\"statement\":\"call f\",\"doubtful\":true,\"edges\":[{\"kind\":\"call\",\"site\":0,\"to\":3}]}\n"
        ++ codes "{\"type\":\"point\",\"point\":1,\"procedure\":\"main\",\"place\":1,\"line\":3,\"first\":18,\"last\":26,"
        ++ codes "\"labels\":[],\"statement\":\"a = b + c\",\"doubtful\":false,\"edges\":[{\"kind\":\"step\",\"to\":2}]}\n"
        ++ codes "{\"type\":\"point\",\"point\":2,\"procedure\":\"main\",\"place\":2,\"line\":null,\"first\":null,\"last\":null,"
        ++ codes "\"labels\":[],\"statement\":null,\"doubtful\":false,\"edges\":[]}\n"
        ++ codes "{\"type\":\"remark\",\"point\":1,\"line\":3,\"first\":18,\"last\":26,\"kind\":\"never_reached\"}\n{\"type\":\"end\",\"points\":3}\n" }
    ensures second { json_of calls_endless known_of_endless_callee second_alone
        ≡ codes "{\"type\":\"program\",\"version\":1,\"points\":5,\"procedures\":[\"main\",\"f\"],\"variables\":[\"a\",\"b\",\"c\"],\"definitions\":4,"
        ++ codes "\"expressions\":1}\n"
        ++ codes "{\"type\":\"point\",\"point\":3,\"procedure\":\"f\",\"place\":0,\"line\":6,\"first\":42,\"last\":47,"
        ++ codes "\"labels\":[\"L\"],\"statement\":\"goto L\",\"doubtful\":true,\"edges\":[{\"kind\":\"step\",\"to\":3}]}\n"
        ++ codes "{\"type\":\"point\",\"point\":4,\"procedure\":\"f\",\"place\":1,\"line\":null,\"first\":null,\"last\":null,"
        ++ codes "\"labels\":[],\"statement\":null,\"doubtful\":false,\"edges\":[{\"kind\":\"return\",\"site\":0,\"to\":1}]}\n"
        ++ codes "{\"type\":\"end\",\"points\":2}\n" }
{}
