//! Worked examples of what is said of a fault's place: each the contract of a function with an empty body.
ghost use Rattle.cmwq_grammar.specs.declared.why.Why.TheVariants as why;
ghost use Rattle.cmwq_types.specs.declared.check.Fault.TheVariants as fault;
ghost use Rattle.cmwq_grammar.specs.declared.next.Next.TheVariants as next;
ghost use Rattle.cmwq_verdict.specs.Cures.{bodiless, missing_cure};
ghost use Rattle.cmwq_verdict.specs.Forms.{kernel_form};
ghost use Rattle.cmwq_verdict.specs.Hints.{limits_text, meant_first, meant_line, stand_line, things_list, words_told};
ghost use Rattle.cmwq_verdict.specs.Mending.{why_sentence};
ghost use Rattle.cmwq_verdict.specs.WordPlaces.{is_begun_with};
ghost use Rattle.std.specs.Prelude.{◌≡◌, ◌∷◌, [], None, Some, codes, false, true};

/// What may stand at a place is told in one line: the things, with a comma between two, and the line's end; where there is none, that the line should
/// end, or how one may begin.
pub fn places_are_told_in_a_line()
    ensures things { stand_line (codes "queue" ∷ []) (things_list (codes "a" ∷ codes "b" ∷ [])) false ≡ codes "  expected here: a, b\n" }
    ensures end_too { stand_line (codes "queue" ∷ []) (things_list (codes "*" ∷ [])) true ≡ codes "  expected here: *, or the line's end\n" }
    ensures end_alone { stand_line (codes "queue" ∷ []) (things_list []) true ≡ codes "  the line should end here\n" }
    ensures nothing { stand_line (codes "work" ∷ codes "actor" ∷ []) (things_list []) false ≡ codes "  a line here may begin with: work, actor\n" }
    ensures meant { meant_line (Some (codes "freezable")) ≡ codes "  did you mean freezable?\n" }
    ensures not_meant { meant_line None ≡ [] }
    ensures limits { limits_text 1 16 ≡ codes "a number from 1 to 16" }
    ensures one_number { limits_text 0 0 ≡ codes "the number 0" }
{}

/// Eight words are told, and how many more there are.
pub fn eight_words_are_told()
    ensures eight { words_told (codes "a" ∷ codes "b" ∷ codes "c" ∷ codes "d" ∷ codes "e" ∷ codes "f" ∷ codes "g" ∷ codes "h" ∷ [])
        ≡ codes "a" ∷ codes "b" ∷ codes "c" ∷ codes "d" ∷ codes "e" ∷ codes "f" ∷ codes "g" ∷ codes "h" ∷ [] }
    ensures ten { words_told (codes "a" ∷ codes "b" ∷ codes "c" ∷ codes "d" ∷ codes "e" ∷ codes "f" ∷ codes "g" ∷ codes "h" ∷ codes "i" ∷ codes "j" ∷ [])
        ≡ codes "a" ∷ codes "b" ∷ codes "c" ∷ codes "d" ∷ codes "e" ∷ codes "f" ∷ codes "g" ∷ codes "h" ∷ codes "2 more" ∷ [] }
{}

/// A line goes on behind a first word with which it may begin.
pub fn lines_go_on_behind_their_first_word()
    ensures begun { is_begun_with (codes "queue" ∷ codes "work" ∷ []) (codes "work" ∷ codes "a" ∷ []) ≡ true }
    ensures not_so { is_begun_with (codes "work" ∷ []) (codes "queue" ∷ []) ≡ false }
    ensures no_word { is_begun_with (codes "work" ∷ []) [] ≡ false }
{}

/// A misspelt word is compared with the words that a line begins with at the line's front alone.
pub fn first_words_are_meant_at_the_front()
    ensures front { meant_first (codes "queue" ∷ codes "state" ∷ []) [] (codes "stat") ≡ Some (codes "state") }
    ensures behind { meant_first (codes "queue" ∷ codes "state" ∷ []) (codes "cancel" ∷ []) (codes "stat") ≡ None }
{}

/// A sentence is told by its reason: on a number with its limits, on `max` apart from `ordered`, in an open body with its work.
pub fn reasons_have_their_sentences()
    ensures range { why_sentence [] (Some (record { low = 1; high = 16 })) None (why.Fault fault.Range)
        ≡ codes "  the number is out of its limits: it must be a number from 1 to 16\n" }
    ensures max { why_sentence (codes "0") None None (why.Fault fault.BadFlags)
        ≡ codes "  max takes 1 to 512; a kernel's 0, its default, is 256 in Linux 6.1 and 6.12\n" }
    ensures ordered { why_sentence (codes "ordered") None None (why.Fault fault.BadFlags) ≡ codes "  an ordered queue has max 1\n" }
    ensures in_body { why_sentence (codes "tick") None (Some (codes "mail")) why.Misplaced
        ≡ codes "  the body of mail is open: its operations belong here, and finish ends it\n" }
    ensures no_end { why_sentence (codes "actor") None (Some (codes "mail")) (why.Fault fault.BadBody) ≡ codes "  the body of mail lacks the finish that ends it\n" }
{}

/// A kernel's word is written as its place wants it: in a body `mod` has no CPU, and nothing stands for a flush.
pub fn kernel_words_are_written_so()
    ensures call { kernel_form (next.Instruction true true true true) (codes "queue_work(q,") ≡ Some (codes "queue WORK CPU") }
    ensures alone { kernel_form (next.Instruction true true true true) (codes "flush_workqueue") ≡ Some (codes "flush_queue QUEUE") }
    ensures in_body { kernel_form (next.Operation true) (codes "mod_delayed_work") ≡ Some (codes "mod WORK N") }
    ensures ends_body { kernel_form (next.Operation true) (codes "return;") ≡ Some (codes "finish") }
    ensures no_operation { kernel_form (next.Operation true) (codes "flush_work") ≡ None }
    ensures declared { kernel_form (next.Declaration true true) (codes "max_active") ≡ Some (codes "queue NAME max N FLAG..") }
    ensures too_early { kernel_form (next.Declaration true true) (codes "queue_work") ≡ None }
    ensures own { kernel_form (next.Instruction true true true true) (codes "queue") ≡ None }
{}

/// The operand that is missing is told by how many words are there; behind `*` it is the number of times.
pub fn missing_operands_are_told()
    ensures cpu { missing_cure (next.Instruction true true true true) (codes "queue" ∷ codes "a" ∷ []) ≡ Some (codes "queue WORK CPU: the CPU is missing") }
    ensures times { missing_cure (next.Instruction true true true true) (codes "next" ∷ codes "*" ∷ []) ≡ Some (codes "next * N: the number N is missing") }
    ensures ticks { missing_cure (next.Operation true) (codes "burn" ∷ []) ≡ Some (codes "burn N: the number N is missing") }
    ensures max { missing_cure (next.Declaration true true) (codes "queue" ∷ codes "q" ∷ []) ≡ Some (codes "queue NAME max N FLAG..: the word max is missing") }
    ensures nothing { missing_cure next.Cpus [] ≡ None }
{}

/// The first work whose body isn't begun has none; where each has one, none is told.
pub fn works_without_a_body_are_told()
    ensures first { bodiless (codes "work a q\nwork b q\n") ≡ Some (codes "a") }
    ensures second { bodiless (codes "work a q\nwork b q\nbody a\nfinish\n") ≡ Some (codes "b") }
    ensures none { bodiless (codes "work a q\nbody a\nfinish\n") ≡ None }
{}
