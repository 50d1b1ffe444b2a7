//! Worked texts: what is read of them, each checked by computing it.

ghost use Rattle.std.specs.Prelude.{◌≡◌, ◌∷◌, ◌++◌, ℕ, [], Some, None, Ok, Err, codes};
ghost use Rattle.part_texts.specs.Lines.{json_kind, kind_of, mark_of, read_line, read_number};
ghost use Rattle.part_texts.specs.Merges.{merged};
ghost use Rattle.part_texts.specs.Orders.{in_order_by};
ghost use Rattle.part_texts.specs.Parts.{read_heading, read_part};
ghost use Rattle.part_texts.specs.Shares.{read_share};
ghost use Rattle.part_texts.specs.declared.fault.MergeFault.TheVariants.{InText, Missing};
ghost use Rattle.part_texts.specs.declared.fault.PartFault.TheVariants.{CutShort, Double, NoPart, OtherCount, OtherForm, OtherProgram};
ghost use Rattle.part_texts.specs.declared.form.PartForm.TheVariants.{Json, Report};

/// Numbers, and what is none or too large.
pub fn number_examples()
    ensures two_digits { read_number 4096 (codes "12") ≡ Some 12 }
    ensures at_most { read_number 4096 (codes "4096") ≡ Some 4096 }
    ensures too_large { read_number 4096 (codes "4097") ≡ None }
    ensures no_digit { read_number 4096 (codes "1a") ≡ None }
    ensures no_digits { read_number 4096 [] ≡ None }
{}

/// Kinds by their words.
pub fn kind_examples()
    ensures never_reached { kind_of (codes "never reached") ≡ Some 0 }
    ensures unset { kind_of (codes "x may be used before it is set") ≡ Some 1 }
    ensures computed { kind_of (codes "a + b is already computed") ≡ Some 2 }
    ensures very_busy { kind_of (codes "a + b is very busy") ≡ Some 3 }
    ensures dead { kind_of (codes "assignment to x is dead") ≡ Some 4 }
    ensures no_assignment { kind_of (codes "x is dead") ≡ None }
    ensures no_remark { kind_of (codes "x is busy") ≡ None }
{}

/// Lines of part 2 of a report.
pub fn line_examples()
    ensures remark { read_line Report 2 (codes "4: y is very busy")
        ≡ Some (record { mark = record { section = 0; number = 4; kind = 3 }; part = 2; text = codes "4: y is very busy" }) }
    ensures no_space { read_line Report 2 (codes "4:y is very busy") ≡ None }
    ensures no_number { read_line Report 2 (codes "y is very busy") ≡ None }
    ensures object { read_line Report 2 (codes "{\"type\":\"end\",\"points\":4}") ≡ None }
{}

/// Lines of JSON: of a point, of remarks, and the last one.
pub fn object_examples()
    ensures point { mark_of Json (codes "{\"type\":\"point\",\"point\":12,\"procedure\":\"main\"}")
        ≡ Some (record { section = 0; number = 12; kind = 0 }) }
    ensures remark { mark_of Json (codes "{\"type\":\"remark\",\"point\":3,\"line\":4,\"first\":5,\"last\":6,\"kind\":\"dead\",\"variable\":\"x\"}")
        ≡ Some (record { section = 1; number = 3; kind = 4 }) }
    ensures never_reached { mark_of Json (codes "{\"type\":\"remark\",\"point\":3,\"line\":4,\"first\":5,\"last\":6,\"kind\":\"never_reached\"}")
        ≡ Some (record { section = 1; number = 3; kind = 0 }) }
    ensures last { mark_of Json (codes "{\"type\":\"end\",\"points\":4}") ≡ Some (record { section = 2; number = 0; kind = 0 }) }
    ensures no_point { mark_of Json (codes "{\"type\":\"point\",\"place\":12}") ≡ None }
    ensures no_kind { mark_of Json (codes "{\"type\":\"remark\",\"point\":3}") ≡ None }
    ensures other_type { mark_of Json (codes "{\"type\":\"program\",\"version\":1}") ≡ None }
    ensures line { mark_of Json (codes "4: y is very busy") ≡ None }
{}

/// Kinds by their fields.
pub fn field_examples()
    ensures never_reached { json_kind (codes "\"kind\":\"never_reached\"}") ≡ Some 0 }
    ensures unset { json_kind (codes "\"kind\":\"unset\"") ≡ Some 1 }
    ensures computed { json_kind (codes "\"kind\":\"computed\"") ≡ Some 2 }
    ensures very_busy { json_kind (codes "\"kind\":\"busy\"") ≡ Some 3 }
    ensures dead { json_kind (codes "\"kind\":\"dead\"") ≡ Some 4 }
    ensures no_kind { json_kind (codes "\"kind\":\"never_reached\"") ≡ None }
{}

/// First lines.
pub fn heading_examples()
    ensures part { read_heading (codes "part 1 of 3 of 0a") ≡ Some (record { form = Report; part = 1; count = 3; digest = codes "0a" }) }
    ensures above { read_heading (codes "part 4 of 3 of 0a") ≡ None }
    ensures zero { read_heading (codes "part 0 of 3 of 0a") ≡ None }
    ensures too_many { read_heading (codes "part 1 of 4097 of 0a") ≡ None }
    ensures more_words { read_heading (codes "part 1 of 3 of 0a b") ≡ None }
{}

/// First lines of JSON.
pub fn json_heading_examples()
    ensures part { read_heading (codes "{\"type\":\"part\",\"version\":1,\"part\":1,\"parts\":3,\"digest\":\"0a\"}")
        ≡ Some (record { form = Json; part = 1; count = 3; digest = codes "0a" }) }
    ensures above { read_heading (codes "{\"type\":\"part\",\"version\":1,\"part\":4,\"parts\":3,\"digest\":\"0a\"}") ≡ None }
    ensures other_version { read_heading (codes "{\"type\":\"part\",\"version\":2,\"part\":1,\"parts\":3,\"digest\":\"0a\"}") ≡ None }
    ensures no_brace { read_heading (codes "{\"type\":\"part\",\"version\":1,\"part\":1,\"parts\":3,\"digest\":\"0a\"") ≡ None }
    ensures program { read_heading (codes "{\"type\":\"program\",\"version\":1,\"points\":1}") ≡ None }
{}

/// Numbers in order by their tens.
pub fn order_examples()
    ensures sorted { in_order_by {A = ℕ} (λ x. x) (3 ∷ 1 ∷ 2 ∷ []) ≡ 1 ∷ 2 ∷ 3 ∷ [] }
    ensures stable { in_order_by {A = ℕ} (λ x. 0) (3 ∷ 1 ∷ 2 ∷ []) ≡ 3 ∷ 1 ∷ 2 ∷ [] }
{}

/// Whole parts, and parts that are cut short.
pub fn part_examples()
    ensures whole { read_part (codes "part 1 of 1 of 0a\nc\n4: never reached\nend 1\n")
        ≡ Ok (record {
          heading = record { form = Report; part = 1; count = 1; digest = codes "0a" };
          counts = codes "c";
          lines = record { mark = record { section = 0; number = 4; kind = 0 }; part = 1; text = codes "4: never reached" } ∷ [];
        }) }
    ensures cut_at_line { read_part (codes "part 1 of 1 of 0a\nc\n4: never reached\n") ≡ Err CutShort }
    ensures cut_in_line { read_part (codes "part 1 of 1 of 0a\nc\n4: never rea") ≡ Err CutShort }
    ensures other_end { read_part (codes "part 1 of 1 of 0a\nc\nend 2\n") ≡ Err NoPart }
    ensures no_part { read_part (codes "c\n4: never reached\n") ≡ Err NoPart }
{}

/// Two parts, merged in both orders.
pub fn merge_examples()
    ensures in_order { merged (codes "part 1 of 2 of 0a\nc\n4: x is very busy\nend 1\n"
        ∷ codes "part 2 of 2 of 0a\nc\n4: y is already computed\nend 2\n" ∷ []) ≡ Ok (codes "c\n4: y is already computed\n4: x is very busy\n") }
    ensures reversed { merged (codes "part 2 of 2 of 0a\nc\n4: y is very busy\nend 2\n"
        ∷ codes "part 1 of 2 of 0a\nc\n4: x is very busy\nend 1\n" ∷ []) ≡ Ok (codes "c\n4: x is very busy\n4: y is very busy\n") }
{}

/// Two parts of JSON, merged: the lines of points, of remarks, and the last one.
pub fn json_examples()
    ensures reversed { merged ((codes "{\"type\":\"part\",\"version\":1,\"part\":2,\"parts\":2,\"digest\":\"0a\"}\nc\n"
        ++ codes "{\"type\":\"remark\",\"point\":0,\"line\":2,\"first\":1,\"last\":2,\"kind\":\"dead\",\"variable\":\"x\"}\n"
        ++ codes "{\"type\":\"end-part\",\"part\":2}\n")
        ∷ (codes "{\"type\":\"part\",\"version\":1,\"part\":1,\"parts\":2,\"digest\":\"0a\"}\nc\n{\"type\":\"point\",\"point\":0,\"place\":0}\n"
        ++ codes "{\"type\":\"point\",\"point\":1,\"place\":1}\n{\"type\":\"end\",\"points\":2}\n{\"type\":\"end-part\",\"part\":1}\n") ∷ [])
        ≡ Ok (codes "c\n{\"type\":\"point\",\"point\":0,\"place\":0}\n{\"type\":\"point\",\"point\":1,\"place\":1}\n"
        ++ codes "{\"type\":\"remark\",\"point\":0,\"line\":2,\"first\":1,\"last\":2,\"kind\":\"dead\",\"variable\":\"x\"}\n"
        ++ codes "{\"type\":\"end\",\"points\":2}\n") }
    ensures other_form { merged (codes "part 1 of 2 of 0a\nc\nend 1\n"
        ∷ codes "{\"type\":\"part\",\"version\":1,\"part\":2,\"parts\":2,\"digest\":\"0a\"}\nc\n{\"type\":\"end-part\",\"part\":2}\n" ∷ [])
        ≡ Err (InText 1 OtherForm) }
{}

/// What does not go together.
pub fn fault_examples()
    ensures second_missing { merged (codes "part 1 of 2 of 0a\nc\nend 1\n" ∷ []) ≡ Err (Missing 2) }
    ensures none { merged [] ≡ Err (Missing 1) }
    ensures double { merged (codes "part 1 of 2 of 0a\nc\nend 1\n" ∷ codes "part 1 of 2 of 0a\nc\nend 1\n" ∷ []) ≡ Err (InText 1 Double) }
    ensures other_program { merged (codes "part 1 of 2 of 0a\nc\nend 1\n"
        ∷ codes "part 2 of 2 of 0b\nc\nend 2\n" ∷ []) ≡ Err (InText 1 OtherProgram) }
    ensures other_count { merged (codes "part 1 of 2 of 0a\nc\nend 1\n"
        ∷ codes "part 2 of 3 of 0a\nc\nend 2\n" ∷ []) ≡ Err (InText 1 OtherCount) }
{}

/// Words that name a part, and words that name none.
pub fn share_examples()
    ensures one { read_share (codes "2/3") ≡ Some (2, 3) }
    ensures zeros { read_share (codes "02/0003") ≡ Some (2, 3) }
    ensures below { read_share (codes "0/3") ≡ None }
    ensures above { read_share (codes "4/3") ≡ None }
    ensures many { read_share (codes "1/4097") ≡ None }
    ensures alone { read_share (codes "2") ≡ None }
    ensures three { read_share (codes "1/2/3") ≡ None }
{}
