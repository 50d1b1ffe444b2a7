//! Texts, their refusals and their programs, checked by computing them: a wrong digit in any of them is refused.

ghost use Rattle.std.specs.Prelude.{◌≡◌, [], ◌∷◌, ◌++◌, codes, None};
ghost use Rattle.checked_examples.specs.ReaderExamples.{refused, procedures_before, word_from, numbered_example};
ghost use Rattle.tac_reader.specs.Faults.{refusal_of, refusal_within};
ghost use Rattle.tac_listing.specs.Listings.{listing_of};
ghost use Rattle.tac_reader.specs.Parses.{program_of};
ghost use Rattle.tac_program.specs.Sound.{IsSound, IsSoundStatement};
ghost use Rattle.tac_lines.specs.Tokens.{row_from, name, number, fixed};
ghost use Rattle.tac_program.specs.declared.limits.Limits.TheVariants.{Large};
ghost use Rattle.tac_program.specs.declared.program.Op.TheVariants.{Less, Plus, Tilde};
ghost use Rattle.tac_program.specs.declared.program.Operand.TheVariants.{Variable, Number};
ghost use Rattle.tac_program.specs.declared.program.StmtKind.TheVariants.{Copy, Unary, Binary, Goto, IfCompare, Call};
ghost use Rattle.tac_lines.specs.declared.refusal.RefusalKind.TheVariants.{BadByte, NumberTooLarge, NameTooLong, Syntax, Unclosed, NoMain};
ghost use Rattle.tac_lines.specs.declared.refusal.RefusalKind.TheVariants.{DuplicateProcedure, DuplicateLabel, UnknownLabel, UnknownProcedure};
ghost use Rattle.tac_lines.specs.declared.refusal.RefusalKind.TheVariants.{TooManyProcedures, DuplicateCallee};

/// Every beginning of the smallest program is refused at its place, until it is whole.
pub fn beginnings()
    ensures first_0 { refusal_of (codes "") ≡ refused NoMain 1 1 }
    ensures first_1 { refusal_of (codes "p") ≡ refused Syntax 1 1 }
    ensures first_2 { refusal_of (codes "pr") ≡ refused Syntax 1 1 }
    ensures first_3 { refusal_of (codes "pro") ≡ refused Syntax 1 1 }
    ensures first_4 { refusal_of (codes "proc") ≡ refused Syntax 1 5 }
    ensures first_5 { refusal_of (codes "proc ") ≡ refused Syntax 1 5 }
    ensures first_6 { refusal_of (codes "proc m") ≡ refused Unclosed 1 7 }
    ensures first_7 { refusal_of (codes "proc ma") ≡ refused Unclosed 1 8 }
    ensures first_8 { refusal_of (codes "proc mai") ≡ refused Unclosed 1 9 }
    ensures first_9 { refusal_of (codes "proc main") ≡ refused Unclosed 1 10 }
    ensures first_10 { refusal_of (codes "proc main\n") ≡ refused Unclosed 2 1 }
    ensures first_11 { refusal_of (codes "proc main\ne") ≡ refused Syntax 2 2 }
    ensures first_12 { refusal_of (codes "proc main\nen") ≡ refused Syntax 2 3 }
    ensures first_13 { refusal_of (codes "proc main\nend") ≡ None }
    ensures first_14 { refusal_of (codes "proc main\nend\n") ≡ None }
{}

/// One fault, and where it stands.
pub fn faults_of_a_line()
    ensures name_behind_number { refusal_of (codes "proc main\nx = 12ab\nend\n") ≡ refused Syntax 2 7 }
    ensures keyword_for_name { refusal_of (codes "proc proc\nend\n") ≡ refused Syntax 1 6 }
    ensures number_too_large { refusal_of (codes "9223372036854775808\n") ≡ refused NumberTooLarge 1 1 }
    ensures number_too_large_as_operand { refusal_of (codes "proc main\nx = 9223372036854775808\nend\n") ≡ refused NumberTooLarge 2 5 }
    ensures largest_number { refusal_of (codes "proc main\nx = 9223372036854775807\nend\n") ≡ None }
    ensures unfinished { refusal_of (codes "proc main\nx =\nend\n") ≡ refused Syntax 2 4 }
    ensures unclosed_after_line_feed { refusal_of (codes "proc main\nx = 1\n") ≡ refused Unclosed 3 1 }
    ensures unclosed_without_line_feed { refusal_of (codes "proc main\nx = 1") ≡ refused Unclosed 2 6 }
    ensures byte_zero { refusal_of (codes "proc main\nx = \0\n") ≡ refused BadByte 2 5 }
{}

/// One name too many or too few, and where it stands.
pub fn faults_of_names()
    ensures no_main { refusal_of (codes "") ≡ refused NoMain 1 1 }
    ensures duplicate_procedure { refusal_of (codes "proc q\nend\nproc q\nend\n") ≡ refused DuplicateProcedure 3 6 }
    ensures duplicate_label { refusal_of (codes "proc main\nA: A: skip\nend\n") ≡ refused DuplicateLabel 2 4 }
    ensures unknown_label { refusal_of (codes "proc main\ngoto M\nend\n") ≡ refused UnknownLabel 2 6 }
    ensures unknown_procedure { refusal_of (codes "proc main\ncall z\nend\n") ≡ refused UnknownProcedure 2 6 }
    ensures duplicate_callee { refusal_of (codes "proc main\ncall main | main\nend\n") ≡ refused DuplicateCallee 2 13 }
{}

/// A call lists one to eight procedures.
pub fn calls()
    ensures two { refusal_of (codes "proc main\nx = 1\ncall p | q\nprint x\nend\nproc p\nx = 2\nend\nproc q\nskip\nend\n") ≡ None }
    ensures unfinished { refusal_of (codes "proc main\ncall main |\nend\n") ≡ refused Syntax 2 12 }
    ensures nine { refusal_of (codes "proc main\ncall a|b|c|d|e|f|g|h|i\nend\n") ≡ refused Syntax 2 21 }
{}

/// Which fault of several is told.
pub fn order_of_checks()
    ensures label_before_jump_and_call { refusal_of (codes "proc main\ngoto A\ncall z\nA: A: skip\nend\n") ≡ refused DuplicateLabel 4 4 }
    ensures label_of_another_procedure { refusal_of (codes "proc main\ngoto A\nend\nproc p\ncall p\nA: A: skip\nend\n") ≡ refused DuplicateLabel 6 4 }
    ensures unknown_before_duplicate_callee { refusal_of (codes "proc main\ncall main | main\ncall z\nend\n") ≡ refused UnknownProcedure 3 6 }
    ensures procedure_before_label { refusal_of (codes "proc p\nA: A: skip\nend\nproc p\nend\n") ≡ refused DuplicateProcedure 4 6 }
    ensures form_of_a_second_body { refusal_of (codes "proc p\nend\nproc p\nx\nend\n") ≡ refused Syntax 4 2 }
    ensures names_before_main { refusal_of (codes "proc p\ngoto A\nend\n") ≡ refused UnknownLabel 2 6 }
{}

/// A line is judged as things stand at its beginning.
pub fn inside_and_outside()
    ensures proc_inside { refusal_of (codes "proc main\nproc p\nend\n") ≡ refused Syntax 2 1 }
    ensures end_outside { refusal_of (codes "end\n") ≡ refused Syntax 1 1 }
    ensures end_behind_label { refusal_of (codes "proc main\nL: end\nend\n") ≡ refused Syntax 2 4 }
    ensures statement_outside { refusal_of (codes "skip\n") ≡ refused Syntax 1 1 }
{}

/// A line with a bad byte is judged by the tokens before it, and never as unfinished.
pub fn bad_bytes()
    ensures wrong_token_before { refusal_of (codes "proc main\nx y @\nend\n") ≡ refused Syntax 2 3 }
    ensures unfinished_before { refusal_of (codes "proc main\nx =  @\nend\n") ≡ refused BadByte 2 6 }
    ensures bad_byte_before_wrong_token { refusal_of (codes "proc main\nx @ y\nend\n") ≡ refused BadByte 2 3 }
{}

/// An unfinished line is wrong behind its last token, whatever follows there.
pub fn unfinished_lines()
    ensures blanks_and_comment { refusal_of (codes "proc main\nx =   # c\nend\n") ≡ refused Syntax 2 4 }
    ensures before_unclosed { refusal_of (codes "proc main\nx =") ≡ refused Syntax 2 4 }
    ensures number_where_none_may_stand { refusal_of (codes "proc main\n9223372036854775808\nend\n") ≡ refused NumberTooLarge 2 1 }
{}

/// A carriage return is a blank directly before a line feed, and nowhere else outside a comment.
pub fn line_ends()
    ensures carriage_return_line_feed { refusal_of (codes "proc main\r\n x = 1 # a\r\nend\r\n") ≡ None }
    ensures two_carriage_returns { refusal_of (codes "proc main\r\r\nend\n") ≡ refused BadByte 1 10 }
    ensures last_byte { refusal_of (codes "proc main\nend\r") ≡ refused BadByte 2 4 }
    ensures last_byte_of_a_comment { refusal_of (codes "proc main\nend #\r") ≡ None }
    ensures comment_of_any_bytes { refusal_of (codes "proc main\n#" ++ 0 ∷ 13 ∷ 255 ∷ codes "\nend\n") ≡ None }
{}

/// Names of 64 bytes, numbers, procedures.
pub fn limits()
    ensures name_of_64 { refusal_of (codes "proc main\naaaaaaaaaaaaaaaaaaaaaaaaaaaaaaaaaaaaaaaaaaaaaaaaaaaaaaaaaaaaaaaa = 1\nend\n") ≡ None }
    ensures name_of_65 { refusal_of (codes "proc main\naaaaaaaaaaaaaaaaaaaaaaaaaaaaaaaaaaaaaaaaaaaaaaaaaaaaaaaaaaaaaaaaa = 1\nend\n")
        ≡ refused NameTooLong 2 1 }
    ensures procedures_256 { refusal_of (codes "proc main\nend\n" ++ procedures_before 255 []) ≡ None }
    ensures procedures_257 { refusal_of (codes "proc main\nend\n" ++ procedures_before 256 []) ≡ refused TooManyProcedures 513 6 }
    ensures procedures_257_within_large { refusal_within Large (codes "proc main\nend\n" ++ procedures_before 256 []) ≡ None }
{}

/// The tokens of a line are the longest that begin at their places.
pub fn tokens()
    ensures double_equals { (row_from 0 0 (codes "x==y")).tokens ≡ word_from 0 1 (name (codes "x")) ∷ word_from 1 3 (fixed (codes "=="))
        ∷ word_from 3 4 (name (codes "y")) ∷ [] }
    ensures number_then_name { (row_from 0 0 (codes "12ab")).tokens ≡ word_from 0 2 (number 12) ∷ word_from 2 4 (name (codes "ab")) ∷ [] }
    ensures minus { (row_from 0 0 (codes "x=-5")).tokens ≡ word_from 0 1 (name (codes "x")) ∷ word_from 1 2 (fixed (codes "="))
        ∷ word_from 2 3 (fixed (codes "-")) ∷ word_from 3 4 (number 5) ∷ [] }
    ensures labels { (row_from 0 0 (codes "L:M: x=y+007 # c")).tokens ≡ word_from 0 1 (name (codes "L")) ∷ word_from 1 2 (fixed (codes ":"))
        ∷ word_from 2 3 (name (codes "M")) ∷ word_from 3 4 (fixed (codes ":")) ∷ word_from 5 6 (name (codes "x")) ∷ word_from 6 7 (fixed (codes "="))
        ∷ word_from 7 8 (name (codes "y")) ∷ word_from 8 9 (fixed (codes "+")) ∷ word_from 9 12 (number 7) ∷ [] }
    ensures callees { (row_from 0 0 (codes "call p|q")).tokens ≡ word_from 0 4 (fixed (codes "call")) ∷ word_from 5 6 (name (codes "p"))
        ∷ word_from 6 7 (fixed (codes "|")) ∷ word_from 7 8 (name (codes "q")) ∷ [] }
{}

/// The listing has one layout; read again, it is the same program.
pub fn listings()
    ensures accepted { refusal_of (codes "proc main # start\nL:M: x=y+007\nz=- x\nif x<3 goto L\nend\n") ≡ None }
    ensures listing { listing_of (program_of (codes "proc main # start\nL:M: x=y+007\nz=- x\nif x<3 goto L\nend\n"))
        ≡ codes "proc main\nL:\nM:\n  x = y + 7\n  z = -x\n  if x < 3 goto L\nend\n" }
    ensures again { listing_of (program_of (codes "proc main\nL:\nM:\n  x = y + 7\n  z = -x\n  if x < 3 goto L\nend\n"))
        ≡ codes "proc main\nL:\nM:\n  x = y + 7\n  z = -x\n  if x < 3 goto L\nend\n" }
    ensures straight_line { listing_of (program_of (codes "proc main # start\nL:M: x=007\nend\n")) ≡ codes "proc main\nL:\nM:\n  x = 7\nend\n" }
    ensures labels_of_the_end { listing_of (program_of (codes "proc main\nx = 1\nL:\n\n M: # c\nend\n\nproc q\nskip\ncall q|main\nend"))
        ≡ codes "proc main\n  x = 1\nL:\nM:\nend\nproc q\n  skip\n  call q | main\nend\n" }
    ensures each_statement { listing_of (program_of (codes "proc main\na=b\na=~b\na=b<<2\ngoto L\nif a goto L\nifFalse 0 goto L\n"
        ++ codes "L: call main\nreturn\nread a\nprint 00\nend\n"))
        ≡ codes "proc main\n  a = b\n  a = ~b\n  a = b << 2\n  goto L\n  if a goto L\n  ifFalse 0 goto L\nL:\n  call main\n  return\n"
        ++ codes "  read a\n  print 0\nend\n" }
{}

/// Names are numbered by first occurrence, labels in their procedure, and a label stands for the next statement.
pub fn numbers()
    ensures program { program_of (codes "proc main\nL: x = y\nM:end1:\nend\nproc p\nread z\nx = -7\nM: if y > z goto M\ncall p | main\nend\n")
        ≡ numbered_example }
{}

/// A statement is sound where all that it names is there, and not by one less.
pub fn sound_statements()
    ensures variables { IsSoundStatement 2 0 1 (Copy 0 (Variable 1)) }
    ensures variable_missing { ¬ IsSoundStatement 1 0 1 (Copy 0 (Variable 1)) }
    ensures target_missing { ¬ IsSoundStatement 0 0 1 (Copy 0 (Number 1)) }
    ensures number_too_large { ¬ IsSoundStatement 1 0 1 (Copy 0 (Number 9223372036854775808)) }
    ensures unary { IsSoundStatement 1 0 1 (Unary 0 Tilde (Number 9223372036854775807)) }
    ensures no_unary { ¬ IsSoundStatement 1 0 1 (Unary 0 Plus (Number 1)) }
    ensures no_binary { ¬ IsSoundStatement 1 0 1 (Binary Tilde 0 (Number 1) (Number 1)) }
    ensures label { IsSoundStatement 0 1 1 (Goto 0) }
    ensures label_missing { ¬ IsSoundStatement 0 1 1 (Goto 1) }
    ensures comparison { IsSoundStatement 1 1 1 (IfCompare Less 0 (Variable 0) (Number 3)) }
    ensures no_comparison { ¬ IsSoundStatement 1 1 1 (IfCompare Plus 0 (Variable 0) (Number 3)) }
    ensures callees { IsSoundStatement 0 0 2 (Call (1 ∷ 0 ∷ [])) }
    ensures callee_missing { ¬ IsSoundStatement 0 0 1 (Call (1 ∷ [])) }
    ensures callee_twice { ¬ IsSoundStatement 0 0 2 (Call (1 ∷ 1 ∷ [])) }
    ensures no_callee { ¬ IsSoundStatement 0 0 2 (Call []) }
{}

/// The worked program is sound, and with other names it is not.
pub fn sound_programs()
    ensures numbered { IsSound numbered_example }
    ensures variable_missing { ¬ IsSound (record numbered_example { variable_names = codes "x" ∷ codes "y" ∷ [] }) }
    ensures variable_twice { ¬ IsSound (record numbered_example { variable_names = codes "x" ∷ codes "y" ∷ codes "x" ∷ [] }) }
    ensures keyword { ¬ IsSound (record numbered_example { variable_names = codes "x" ∷ codes "if" ∷ codes "z" ∷ [] }) }
    ensures no_main { ¬ IsSound (record numbered_example { procedure_names = codes "p" ∷ codes "q" ∷ [] }) }
    ensures name_missing { ¬ IsSound (record numbered_example { procedure_names = codes "main" ∷ [] }) }
{}
