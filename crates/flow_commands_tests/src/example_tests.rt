// The programs of `examples/`, with the report and the table that stand beside each as files.

use crate::tacflow_tests::check_by;
use flow_commands::Show;
use std::test::Fail;
use test_support::worked_programs::{ALONE, factorial, remarks};

// Each text, its report, and one of its tables.
const EXAMPLES: &[(&str, &str, Show, &str)] = &[
    (
        "# Both sides of the test evaluate b + c, so it may be computed before it.\nproc main\n  \
        read b\n  read c\n  if c goto right\n  x = b + c\n  print x\n  return\nright:\n  y = b + c\n  print y\nend\n",
        "points 9, variables 4, definitions 8, expressions 1\n5: b + c is very busy\n",
        Show::Busy,
        "main 0: -\nmain 1: -\nmain 2: b + c\nmain 3: b + c\nmain 4: -\nmain 5: -\nmain 6: b + c\nmain 7: -\nmain 8: -\n",
    ),
    (
        "# As a compiler writes it: sorts three inputs, finds their greatest common divisor\n\
        # by remainders, and prints a small table of its multiples.\nproc main\n  call input\n  \
        call sort\n  u = a\n  v = b\n  call gcd\n  u = u\n  v = c\n  call gcd\n  g = u\n  print g\n  \
        call table\n  status = 0\n  print status\nend\n\nproc input\n  read a\n  read b\n  read c\n  \
        # only positive numbers are wanted\n  if a <= 0 goto bad\n  if b <= 0 goto bad\n  \
        if c > 0 goto good\nbad:\n  a = 1\n  b = 1\n  c = 1\ngood:\nend\n\nproc sort\n  t1 = a <= b\n  \
        if t1 goto first\n  call swap_ab\nfirst:\n  t2 = b <= c\n  if t2 goto second\n  t = b\n  \
        b = c\n  c = t\nsecond:\n  if a <= b goto sorted\n  call swap_ab\nsorted:\nend\n\n\
        proc swap_ab\n  t = a\n  a = b\n  b = t\nend\n\nproc gcd\nloop:\n  ifFalse v goto done\n  \
        t = u % v\n  u = v\n  v = t\n  goto loop\ndone:\n  return\nend\n\nproc table\n  i = 1\nrow:\n  \
        if i > 10 goto end_of_table\n  m = g * i\n  odd = i & 1\n  if odd goto print_it\n  m = ~m\n  \
        m = m + 1          # -m in two's complement\nprint_it:\n  call plain | doubled\n  i = i + 1\n  \
        goto row\nend_of_table:\nend\n\nproc plain\n  print m\nend\n\nproc doubled\n  t3 = m << 1\n  print t3\nend\n",
        "points 62, variables 14, definitions 44, expressions 9\n73: i + 1 is very busy\n",
        Show::Live,
        "main 0: -\nmain 1: a, b, c\nmain 2: a, b, c\nmain 3: u, b, c\nmain 4: u, v, c\nmain 5: u, c\n\
        main 6: u, c\nmain 7: u, v\nmain 8: u\nmain 9: g\nmain 10: g\nmain 11: -\nmain 12: status\n\
        main 13: -\ninput 0: -\ninput 1: a\ninput 2: a, b\ninput 3: a, b, c\ninput 4: a, b, c\n\
        input 5: a, b, c\ninput 6: -\ninput 7: a\ninput 8: a, b\ninput 9: a, b, c\nsort 0: a, b, c\n\
        sort 1: a, b, c, t1\nsort 2: a, b, c\nsort 3: a, b, c\nsort 4: a, b, c, t2\nsort 5: a, b, c\n\
        sort 6: a, c, t\nsort 7: a, b, t\nsort 8: a, b, c\nsort 9: a, b, c\nsort 10: a, b, c\n\
        swap_ab 0: a, b, c\nswap_ab 1: b, c, t\nswap_ab 2: a, c, t\nswap_ab 3: a, b, c\n\
        gcd 0: u, v, c\ngcd 1: u, v, c\ngcd 2: v, c, t\ngcd 3: u, c, t\ngcd 4: u, v, c\ngcd 5: u, c\n\
        gcd 6: u, c\ntable 0: g\ntable 1: g, i\ntable 2: g, i\ntable 3: g, i, m\n\
        table 4: g, i, m, odd\ntable 5: g, i, m\ntable 6: g, i, m\ntable 7: g, i, m\ntable 8: g, i\n\
        table 9: g, i\ntable 10: -\nplain 0: g, i, m\nplain 1: g, i\ndoubled 0: g, i, m\ndoubled 1: g, i, t3\ndoubled 2: g, i\n",
    ),
    (
        "# A call that may go to any of three procedures, as a call through a table does.\nproc main\n  \
        read left\n  read right\n  read which\nagain:\n  call add | subtract | negate\n  print left\n  \
        which = which - 1\n  if which > 0 goto again\nend\n\nproc add\n  left = left + right\nend\n\n\
        proc subtract\n  left = left - right\nend\n\nproc negate\n  left = -left\nend\n",
        "points 14, variables 3, definitions 10, expressions 4\n",
        Show::Reach,
        "main 0: left@entry, right@entry, which@entry\nmain 1: right@entry, which@entry, left@3\n\
        main 2: which@entry, left@3, right@4\n\
        main 3: left@3, right@4, which@5, which@9, left@14, left@18, left@22\n\
        main 4: right@4, which@5, which@9, left@14, left@18, left@22\n\
        main 5: right@4, which@5, which@9, left@14, left@18, left@22\n\
        main 6: right@4, which@9, left@14, left@18, left@22\n\
        main 7: right@4, which@9, left@14, left@18, left@22\n\
        add 0: left@3, right@4, which@5, which@9, left@14, left@18, left@22\n\
        add 1: right@4, which@5, which@9, left@14\n\
        subtract 0: left@3, right@4, which@5, which@9, left@14, left@18, left@22\n\
        subtract 1: right@4, which@5, which@9, left@18\n\
        negate 0: left@3, right@4, which@5, which@9, left@14, left@18, left@22\nnegate 1: right@4, which@5, which@9, left@22\n",
    ),
    (
        "# Sums the numbers that are read, until a zero.\nproc main\n  sum = 0\nnext:\n  read x\n  \
        ifFalse x goto done\n  sum = sum + x\n  goto next\ndone:\n  print sum\nend\n",
        "points 7, variables 2, definitions 5, expressions 1\n",
        Show::Live,
        "main 0: -\nmain 1: sum\nmain 2: sum, x\nmain 3: sum, x\nmain 4: sum\nmain 5: sum\nmain 6: -\n",
    ),
    (
        factorial::TEXT,
        "points 10, variables 2, definitions 6, expressions 2\n",
        Show::Reach,
        "main 0: n@entry, result@entry\nmain 1: result@entry, n@3\nmain 2: n@3, result@4\n\
        main 3: n@3, result@4, result@11, n@12\nmain 4: n@3, result@4, result@11, n@12\n\
        factorial 0: n@3, result@4, result@11, n@12\nfactorial 1: n@3, result@4, result@11, n@12\n\
        factorial 2: n@3, result@11, n@12\nfactorial 3: result@11, n@12\nfactorial 4: n@3, result@4, result@11, n@12\n",
    ),
    (
        remarks::TEXT,
        "points 14, variables 6, definitions 13, expressions 2\n6: a + b is already computed\n\
        7: a * b is very busy\n12: assignment to x is dead\n15: count may be used before it is set\n17: never reached\n",
        Show::Avail,
        "main 0: -\nmain 1: -\nmain 2: -\nmain 3: a + b\nmain 4: a + b\nmain 5: a + b\n\
        main 6: a + b, a * b\nmain 7: a + b\nmain 8: a + b, a * b\nmain 9: a + b, a * b\n\
        main 10: a + b, a * b\nmain 11: a + b, a * b\nmain 12 (no path): a + b, a * b\nmain 13: a + b, a * b\n",
    ),
    (
        "# A straight line: the second use of b + c needs no second addition.\nproc main\n  b = 3\n  \
        c = 4\n  a = b + c\n  d = b + c\n  print a\n  print d\nend\n",
        "points 7, variables 4, definitions 8, expressions 1\n6: b + c is already computed\n",
        Show::Avail,
        "main 0: -\nmain 1: -\nmain 2: -\nmain 3: b + c\nmain 4: b + c\nmain 5: b + c\nmain 6: b + c\n",
    ),
    (
        "# What is never reached, and what may never end.\nproc main\n  \
        x = 1             # never read, but not called dead: spin may follow, and never ends\n  \
        if flag goto stop\n  call spin\n  x = 2             # never reached: spin never comes back\n\
        stop:\n  return\n  print x           # never reached\nend\n\nproc spin\nforever:\n  goto forever\nend\n",
        "points 9, variables 2, definitions 4, expressions 0\n4: flag may be used before it is set\n6: never reached\n9: never reached\n",
        Show::Live,
        "main 0: flag\nmain 1: flag\nmain 2 (no path): -\nmain 3: -\nmain 4: -\nmain 5: x\nmain 6: -\nspin 0 (no path): -\nspin 1: -\n",
    ),
];

#[test]
fn examples(rt: HostRuntime) -> Result<(), Fail> {
    for (text, report, show, table) in EXAMPLES {
        let text = text.as_bytes();
        check_by(
            &rt,
            text,
            usize::MAX,
            Show::Report,
            ALONE,
            report.as_bytes(),
        )?;
        check_by(&rt, text, usize::MAX, *show, ALONE, table.as_bytes())?;
    }
    Ok(())
}
