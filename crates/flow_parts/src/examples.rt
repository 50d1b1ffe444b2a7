//! Worked cuts and lines, each checked by computing it.

ghost use Rattle.std.specs.Prelude.{◌≡◌, ◌∷◌, [], true, false, codes};
ghost use Rattle.flow_parts.specs.Cuts.{cut_end, groups_of, is_in_cut};
ghost use Rattle.flow_parts.specs.Parts.{end_line, heading_line, hexadecimal};

/// 1,200 bits are three groups. Of two parts the first has one group and the second two, and each bit is in one of them.
pub fn cut_examples()
    ensures groups { groups_of 1200 ≡ 3 }
    ensures no_groups { groups_of 0 ≡ 0 }
    ensures first_end { cut_end 3 2 1 ≡ 1 }
    ensures last_end { cut_end 3 2 2 ≡ 3 }
    ensures last_of_first { is_in_cut 1200 2 1 511 ≡ true }
    ensures not_in_second { is_in_cut 1200 2 2 511 ≡ false }
    ensures not_in_first { is_in_cut 1200 2 1 512 ≡ false }
    ensures first_of_second { is_in_cut 1200 2 2 512 ≡ true }
    ensures last_of_all { is_in_cut 1200 2 2 1199 ≡ true }
{}

/// Lines of part 2 of 3.
pub fn line_examples()
    ensures digits { hexadecimal (0 ∷ 171 ∷ []) ≡ codes "00ab" }
    ensures heading { heading_line (codes "0a") 3 2 ≡ codes "part 2 of 3 of 0a\n" }
    ensures last { end_line 2 ≡ codes "end 2\n" }
{}
