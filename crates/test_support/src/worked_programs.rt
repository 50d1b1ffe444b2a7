//! Programs that several tests work through: each stands here once, with what is known of it. All values are by hand: the definitions
//! of `docs/ANALYSES.md` were followed from point to point, and none is what a program of this repository wrote.

pub mod listed;
pub mod refused;
pub mod series;

/// By so many workers, in slices of so many bits, the tests of both programs answer each text.
pub const TEAMS: &[(u32, u32)] = &[ALONE, (3, 64), (1, 1), (3, 1)];

/// One worker, in slices of 64 bits.
pub const ALONE: (u32, u32) = (1, 64);

/// A procedure that calls itself: what it sets reaches what stands behind its call. The definitions are `x` at the entry and at the
/// lines 2 and 9.
pub mod recursion {
    /// The text.
    pub const TEXT: &str =
        "proc main\nx = 1\ncall f\nprint x\nend\nproc f\nif x goto L\ncall f\nx = 2\nL:\nend\n";

    /// Its listing.
    pub const LISTING: &str =
        "proc main\n  x = 1\n  call f\n  print x\nend\nproc f\n  if x goto L\n  call f\n  x = 2\nL:\nend\n";

    /// The edges out of each point, as `flow_graph_tests` writes them.
    pub const EDGES: &str =
        "0: 0-1\n1: call 1-4 at 1\n2: 2-3\n3:\n4: 4-5 4-7\n5: call 5-4 at 5\n6: 6-7\n7: return 7-2 at 1 return 7-6 at 5\n";

    /// The definitions that reach each point.
    pub const REACH: &str =
        "main 0: x@entry\nmain 1: x@2\nmain 2: x@2, x@9\nmain 3: x@2, x@9\nf 0: x@2\nf 1: x@2\nf 2: x@2, x@9\nf 3: x@2, x@9\n";

    /// Its report: nothing is remarked.
    pub const REPORT: &str = "points 8, variables 1, definitions 3, expressions 0\n";
}

/// No path leads behind the call, since the callee goes round and round.
pub mod callee_loops {
    /// The text.
    pub const TEXT: &str = "proc main\ncall f\na = b + c\nend\nproc f\nL: goto L\nend\n";

    /// The definitions that reach each point.
    pub const REACH: &str =
        "main 0: a@entry, b@entry, c@entry\nmain 1 (no path): -\nmain 2 (no path): -\nf 0: a@entry, b@entry, c@entry\nf 1 (no path): -\n";

    /// The expressions that are available: all of them where there is no path.
    pub const AVAIL: &str =
        "main 0: -\nmain 1 (no path): b + c\nmain 2 (no path): b + c\nf 0: -\nf 1 (no path): b + c\n";

    /// The expressions that are very busy: all of them where there is no path.
    pub const BUSY: &str =
        "main 0 (no path): b + c\nmain 1: b + c\nmain 2: -\nf 0 (no path): b + c\nf 1: b + c\n";
}

/// What a call site brings does not return to the other.
pub mod called_twice {
    /// The text.
    pub const TEXT: &str =
        "proc main\na = 1\ncall p\nprint a\na = 2\ncall p\nprint a\nend\nproc p\nskip\nend\n";

    /// The definitions that reach each point.
    pub const REACH: &str =
        "main 0: a@entry\nmain 1: a@2\nmain 2: a@2\nmain 3: a@2\nmain 4: a@5\nmain 5: a@5\nmain 6: a@5\np 0: a@2, a@5\np 1: a@2, a@5\n";
}

/// A call of either of two, of which one sets what is printed behind it.
pub mod two_callees {
    /// The text.
    pub const TEXT: &str =
        "proc main\nx = 1\ncall p | q\nprint x\nend\nproc p\nx = 2\nend\nproc q\nskip\nend\n";

    /// The definitions that reach each point.
    pub const REACH: &str =
        "main 0: x@entry\nmain 1: x@2\nmain 2: x@2, x@7\nmain 3: x@2, x@7\np 0: x@2\np 1: x@7\nq 0: x@2\nq 1: x@2\n";

    /// The variables that are live at each point.
    pub const LIVE: &str =
        "main 0: -\nmain 1: x\nmain 2: x\nmain 3: -\np 0: -\np 1: x\nq 0: x\nq 1: x\n";
}

/// Two procedures that call each other.
pub mod call_each_other {
    /// The text.
    pub const TEXT: &str =
        "proc main\ncall a\nend\nproc a\nif x goto L\ncall b\nL:\nend\nproc b\ny = 1\ncall a\nend\n";

    /// The definitions that reach each point.
    pub const REACH: &str =
        "main 0: x@entry, y@entry\nmain 1: x@entry, y@entry, y@10\na 0: x@entry, y@entry, y@10\n\
        a 1: x@entry, y@entry, y@10\na 2: x@entry, y@entry, y@10\nb 0: x@entry, y@entry, y@10\nb 1: x@entry, y@10\nb 2: x@entry, y@10\n";

    /// The variables that are live at each point.
    pub const LIVE: &str = "main 0: x\nmain 1: -\na 0: x\na 1: x\na 2: -\nb 0: x\nb 1: x\nb 2: -\n";
}

/// A `main` that calls itself: the boundary stays at the outermost one.
pub mod calls_main {
    /// The text.
    pub const TEXT: &str = "proc main\nif a goto L\na = 1\ncall main\nL: print a\nend\n";

    /// The definitions that reach each point.
    pub const REACH: &str =
        "main 0: a@entry, a@3\nmain 1: a@entry, a@3\nmain 2: a@3\nmain 3: a@entry, a@3\nmain 4: a@entry, a@3\n";
}

/// A `main` that calls itself, and prints what the inner one left.
pub mod prints_behind_itself {
    /// The text.
    pub const TEXT: &str = "proc main\nif a goto L\na = 1\ncall main\nprint a\nL:\nend\n";

    /// The definitions that reach each point.
    pub const REACH: &str =
        "main 0: a@entry, a@3\nmain 1: a@entry, a@3\nmain 2: a@3\nmain 3: a@3\nmain 4: a@entry, a@3\n";
}

/// A procedure that nothing calls.
pub mod not_called {
    /// The text.
    pub const TEXT: &str = "proc main\nx = 1\nend\nproc q\nx = 2\nend\n";

    /// The definitions that reach each point.
    pub const REACH: &str = "main 0: x@entry\nmain 1: x@2\nq 0 (no path): -\nq 1 (no path): -\n";

    /// The variables that are live at each point.
    pub const LIVE: &str = "main 0: -\nmain 1: -\nq 0 (no path): -\nq 1 (no path): -\n";
}

/// What is read behind a call is live in the callee.
pub mod reads_behind_calls {
    /// The text.
    pub const TEXT: &str = "proc main\ncall p\nprint a\ncall p\nprint b\nend\nproc p\nskip\nend\n";

    /// The variables that are live at each point.
    pub const LIVE: &str =
        "main 0: a, b\nmain 1: a, b\nmain 2: b\nmain 3: b\nmain 4: -\np 0: a, b\np 1: a, b\n";
}

/// An expression on both sides of a call that may change it.
pub mod call_between {
    /// The text.
    pub const TEXT: &str =
        "proc main\na = b + c\ncall p\nd = b + c\nend\nproc p\nif c goto L\nb = 1\nL:\nend\n";

    /// Its report.
    pub const REPORT: &str =
        "points 7, variables 4, definitions 7, expressions 1\n2: b may be used before it is set\n\
        2: c may be used before it is set\n2: assignment to a is dead\n\
        4: b may be used before it is set\n4: c may be used before it is set\n4: assignment to d is dead\n7: c may be used before it is set\n";
}

/// One expression on both sides of a test.
pub mod both_branches {
    /// The text.
    pub const TEXT: &str =
        "proc main\nread b\nread c\nif c goto L\nx = b + c\nprint x\nreturn\nL: y = b + c\nprint y\nend\n";

    /// The expressions that are very busy at each point.
    pub const BUSY: &str =
        "main 0: -\nmain 1: -\nmain 2: b + c\nmain 3: b + c\nmain 4: -\nmain 5: -\nmain 6: b + c\nmain 7: -\nmain 8: -\n";

    /// Its report.
    pub const REPORT: &str =
        "points 9, variables 4, definitions 8, expressions 1\n4: b + c is very busy\n";
}

/// No path leads from the loop to the end.
pub mod no_end {
    /// The text.
    pub const TEXT: &str = "proc main\nx = 1\nif c goto L\nreturn\nL: print x\ngoto L\nend\n";

    /// The variables that are live at each point.
    pub const LIVE: &str =
        "main 0: c\nmain 1: c\nmain 2: -\nmain 3 (no path): -\nmain 4 (no path): -\nmain 5: -\n";
}

/// A loop.
pub mod counts {
    /// The text.
    pub const TEXT: &str =
        "proc main\ni = 0\nL: if i >= 3 goto M\ni = i + 1\ngoto L\nM: print i\nend\n";

    /// The definitions that reach each point.
    pub const REACH: &str =
        "main 0: i@entry\nmain 1: i@2, i@4\nmain 2: i@2, i@4\nmain 3: i@4\nmain 4: i@2, i@4\nmain 5: i@2, i@4\n";
}

/// A definition that another kills.
pub mod set_twice {
    /// The text.
    pub const TEXT: &str = "proc main\nx = 1\nx = y\nend\n";

    /// The definitions that reach each point.
    pub const REACH: &str =
        "main 0: x@entry, y@entry\nmain 1: y@entry, x@2\nmain 2: y@entry, x@3\n";
}

/// A variable that is read and written by one statement.
pub mod adds_to_itself {
    /// The text.
    pub const TEXT: &str = "proc main\nx = x + y\nend\n";

    /// The definitions that reach each point.
    pub const REACH: &str = "main 0: x@entry, y@entry\nmain 1: y@entry, x@2\n";

    /// The variables that are live at each point.
    pub const LIVE: &str = "main 0: x, y\nmain 1: -\n";

    /// The expressions that are available at each point: the sum is changed where it is evaluated.
    pub const AVAIL: &str = "main 0: -\nmain 1: -\n";

    /// The expressions that are very busy at each point.
    pub const BUSY: &str = "main 0: x + y\nmain 1: -\n";
}

/// No variable, and so no bits of any analysis.
pub mod no_bits {
    /// The text.
    pub const TEXT: &str = "proc main\nprint 1\nend\n";

    /// Its table, whatever the analysis.
    pub const TABLE: &str = "main 0: -\nmain 1: -\n";
}

/// No statement: the smallest program, which is its own listing.
pub mod smallest {
    /// The text.
    pub const TEXT: &str = "proc main\nend\n";

    /// Its table, whatever the analysis.
    pub const TABLE: &str = "main 0: -\n";
}

/// Comments, labels and numbers in another layout than that of listings.
pub mod spacing {
    /// The text.
    pub const TEXT: &[u8] = b"proc main # start\nL:M: x=y+007\nz=- x\nif x<3 goto L\nend\n";

    /// Its listing.
    pub const LISTING: &str = "proc main\nL:\nM:\n  x = y + 7\n  z = -x\n  if x < 3 goto L\nend\n";
}

/// One assignment, which is dead.
pub mod small {
    /// The text.
    pub const TEXT: &str = "proc main\nL: x = 1\nend\n";
}

/// The factorial by recursion over global variables, as `examples/recursion.tac` has it.
pub mod factorial {
    /// The text.
    pub const TEXT: &str =
        "# Factorial by recursion over global variables.\nproc main\n  read n\n  result = 1\n  \
        call factorial\n  print result\nend\n\nproc factorial\n  if n <= 1 goto base\n  \
        result = result * n\n  n = n - 1\n  call factorial        # comes back here, and nowhere else\nbase:\nend\n";
}

/// Each kind of remark that a report makes, once, as `examples/remarks.tac` has it.
pub mod remarks {
    /// The text.
    pub const TEXT: &str =
        "# Each kind of remark that a report makes, once.\nproc main\n  read a\n  read b\n  \
        x = a + b\n  y = a + b               # computed just above\n  \
        if x < y goto larger    # a * b comes next on both sides\n  z = a * b\n  goto shown\n\
        larger:\n  z = a * b\n  x = 0                   # nothing reads x from here on\nshown:\n  \
        print z\n  print count             # never set\n  return\n  print y                 # never reached\nend\n";
}
