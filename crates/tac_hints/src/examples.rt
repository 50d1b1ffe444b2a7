//! Worked faults and hints, checked by computing them.

ghost use Rattle.std.specs.Prelude.{◌≡◌, [], ◌∷◌, ◌++◌, codes, false, true};
ghost use Rattle.tac_hints.specs.Examples.{hint_at, in_main, refused};
ghost use Rattle.tac_faults.specs.Hints.Near.{is_near, is_same_but_for_capitals};
ghost use Rattle.tac_faults.specs.Hints.Places.{bytes};
ghost use Rattle.tac_hints.specs.Texts.{hint_of};
ghost use Rattle.tac_faults.specs.Listed.{refusals_within};
ghost use Rattle.tac_faults.specs.declared.slips.Hint.TheVariants.{Byte, Call, Capitals, Comment, EndLacks, First, Float, Misspelt, Nearest};
ghost use Rattle.tac_faults.specs.declared.slips.Hint.TheVariants.{Negative, None, Parenthesis, Reserved, SecondOperator, Semicolon, Slip};
ghost use Rattle.tac_faults.specs.declared.slips.Slip.TheVariants.{Assignment, ColonInJump, Comma, Connective, Control, Declaration, Different};
ghost use Rattle.tac_faults.specs.declared.slips.Slip.TheVariants.{Negation, NumberAndName, NumberForName, Opening, OwnLine, Parameters, Pointer};
ghost use Rattle.tac_faults.specs.declared.slips.Slip.TheVariants.{SecondStatement, Turned};
ghost use Rattle.tac_lines.specs.declared.refusal.RefusalKind.TheVariants.{BadByte, DuplicateLabel, NoMain, Syntax, Unclosed, UnknownLabel};
ghost use Rattle.tac_lines.specs.declared.token.Keyword.TheVariants.{Goto, If, Print};
ghost use Rattle.tac_program.specs.declared.limits.Limits.TheVariants.{Standard};

/// One byte more, fewer and other, and two neighbours swapped; not none, and not two.
pub fn near_words()
    ensures more { is_near (codes "calll") (codes "call") ≡ true }
    ensures fewer { is_near (codes "cll") (codes "call") ≡ true }
    ensures other { is_near (codes "cull") (codes "call") ≡ true }
    ensures swapped { is_near (codes "clal") (codes "call") ≡ true }
    ensures same { is_near (codes "call") (codes "call") ≡ false }
    ensures two { is_near (codes "kul") (codes "call") ≡ false }
    ensures capitals { is_same_but_for_capitals (codes "IFFALSE") (codes "ifFalse") ≡ true }
{}

/// Each line that is wrong is told once, and names only where none is.
pub fn listed_faults()
    ensures none { refusals_within Standard (codes "proc main\nend\n") ≡ [] }
    ensures empty { refusals_within Standard [] ≡ refused NoMain 1 1 ∷ [] }
    ensures each_line { refusals_within Standard (codes "proc main\nx = ; 2 $\ny = 1 2\ngoto L\nend\n")
        ≡ refused BadByte 2 5 ∷ refused Syntax 3 7 ∷ [] }
    ensures open_behind_refused { refusals_within Standard (codes "proc main {\nx = 1\n}\n")
        ≡ refused BadByte 1 11 ∷ refused BadByte 3 1 ∷ refused Unclosed 4 1 ∷ [] }
    ensures closed_behind_refused { refusals_within Standard (codes "proc main\nend 1\nproc p\nend") ≡ refused Syntax 2 5 ∷ [] }
    ensures meant_words { refusals_within Standard (codes "Proc main\nx = 1\nEnd\nproc p\nend") ≡ refused Syntax 1 1 ∷ refused Syntax 3 4 ∷ [] }
    ensures names_in_order { refusals_within Standard (in_main (codes "goto M\nL: L: skip"))
        ≡ refused DuplicateLabel 3 4 ∷ refused UnknownLabel 2 6 ∷ [] }
{}

/// What is told of a fault of a line.
pub fn line_hints()
    ensures byte { hint_at BadByte 7 (codes "x = a $ b") ≡ Byte (bytes 16 17) }
    ensures call { hint_at BadByte 7 (codes "call f(x)") ≡ Call (bytes 15 16) }
    ensures semicolon { hint_at BadByte 6 (codes "x = y;") ≡ Semicolon }
    ensures float { hint_at BadByte 6 (codes "x = 1.5") ≡ Float (bytes 14 17) }
    ensures operator { hint_at Syntax 11 (codes "x = y + z + w") ≡ SecondOperator (bytes 20 21) }
    ensures comment { hint_at Syntax 8 (codes "x = 1 // y") ≡ Comment (bytes 16 18) }
    ensures capitals { hint_at Syntax 4 (codes "IF x goto L") ≡ Capitals If (bytes 10 12) }
    ensures first_word { hint_at Syntax 7 (codes "pritn x") ≡ Misspelt Print (bytes 10 15) }
    ensures later_word { hint_at Syntax 6 (codes "if x gto L") ≡ Misspelt Goto (bytes 15 18) }
    ensures negative { hint_at Syntax 9 (codes "x = a + -5") ≡ Negative (bytes 18 20) }
    ensures reserved { hint_at Syntax 5 (codes "x = end") ≡ Reserved (bytes 14 17) }
    ensures none { hint_at Syntax 7 (codes "x = y z") ≡ None }
    ensures elsewhere { hint_at BadByte 70 (codes "x++") ≡ None }
{}

/// What is told of words and signs that other languages have.
pub fn slip_hints()
    ensures increment { hint_at Syntax 2 (codes "x++") ≡ Slip Assignment (bytes 11 13) }
    ensures compound { hint_at Syntax 3 (codes "x += 1") ≡ Slip Assignment (bytes 12 14) }
    ensures compared { hint_at Syntax 3 (codes "x == 1") ≡ Slip Assignment (bytes 12 14) }
    ensures declared { hint_at Syntax 5 (codes "int x") ≡ Slip Declaration (bytes 10 13) }
    ensures opened { hint_of Standard (codes "def main\nend\n") (refused Syntax 1 1) ≡ Slip Opening (bytes 0 3) }
    ensures opening_word_as_variable { hint_at BadByte 8 (codes "func = (x)") ≡ Parenthesis }
    ensures loops { hint_at Syntax 7 (codes "while x < 3") ≡ Slip Control (bytes 10 15) }
    ensures otherwise { hint_at Syntax 13 (codes "if x goto L else goto M") ≡ Slip Control (bytes 22 26) }
    ensures pointer { hint_at Syntax 1 (codes "*p = 1") ≡ Slip Pointer (bytes 10 12) }
    ensures address { hint_at Syntax 5 (codes "x = &y") ≡ Slip Pointer (bytes 14 16) }
    ensures connective { hint_at Syntax 6 (codes "if a && b goto L") ≡ Slip Connective (bytes 15 17) }
    ensures assigned_connective { hint_at Syntax 8 (codes "x = a || b") ≡ Slip Connective (bytes 16 18) }
    ensures joined { hint_at Syntax 6 (codes "x = 0x1F") ≡ Slip NumberAndName (bytes 14 18) }
    ensures joined_first { hint_at Syntax 1 (codes "1x = 2") ≡ Slip NumberAndName (bytes 10 12) }
    ensures number { hint_at Syntax 6 (codes "goto 10") ≡ Slip NumberForName (bytes 15 17) }
    ensures first_number { hint_at Syntax 1 (codes "5 = x") ≡ Slip NumberForName (bytes 10 11) }
    ensures own_line { hint_at Syntax 5 (codes "end main") ≡ Slip OwnLine (bytes 14 18) }
    ensures parameters { hint_of Standard (codes "proc main()\nend\n") (refused BadByte 1 10) ≡ Slip Parameters (bytes 5 9) }
    ensures turned { hint_at Syntax 6 (codes "if x => y goto L") ≡ Slip Turned (bytes 15 17) }
    ensures different { hint_at Syntax 7 (codes "if x <> y goto L") ≡ Slip Different (bytes 15 17) }
    ensures negation { hint_at Syntax 4 (codes "if !x goto L") ≡ Slip Negation (bytes 13 14) }
    ensures comma { hint_at BadByte 8 (codes "print x, y") ≡ Slip Comma (bytes 17 18) }
    ensures colon { hint_at Syntax 7 (codes "goto L:") ≡ Slip ColonInJump (bytes 16 17) }
    ensures second { hint_at Syntax 7 (codes "x = 1 y = 2") ≡ Slip SecondStatement (bytes 16 17) }
{}

/// What is told of a procedure that is open, and of names.
pub fn text_hints()
    ensures end_lacks { hint_of Standard (codes "# p\nproc p\nx = 1\nproc main\nend\n") (refused Syntax 4 1) ≡ EndLacks 2 (bytes 4 10) }
    ensures end_lacks_last { hint_of Standard (codes "proc main") (refused Unclosed 1 10) ≡ EndLacks 1 (bytes 0 9) }
    ensures first { hint_at DuplicateLabel 4 (codes "L: L: skip") ≡ First 2 (bytes 10 11) }
    ensures nearest { hint_at UnknownLabel 11 (codes "top: goto tpo") ≡ Nearest (bytes 10 13) }
    ensures no_main { hint_of Standard (codes "proc Main\nend\n") (refused NoMain 1 1) ≡ Nearest (bytes 5 9) }
{}
