//! Worked examples of what fits a place, and of what is near: each the contract of a function with an empty body.
ghost use Rattle.cmwq_fitting.specs.Examples.{after_work, front_of_actor, front_of_body, front_of_head, front_of_queue, fixed_and};
ghost use Rattle.cmwq_fitting.specs.Fitting.{fits, may_end};
ghost use Rattle.cmwq_fitting.specs.KnownWords.{fixed_words, known_words, last_body};
ghost use Rattle.cmwq_fitting.specs.Meant.{meant_among, nearest_first};
ghost use Rattle.cmwq_fitting.specs.NearMisses.{plain_form};
ghost use Rattle.cmwq_fitting.specs.Nearness.{apart, nearest};
ghost use Rattle.cmwq_fitting.specs.NumberLimits.{number_fits};
ghost use Rattle.std.specs.List.{filter};
ghost use Rattle.std.specs.Prelude.{◌≡◌, ◌∷◌, [], None, Some, codes, false, true};

/// Behind `max 1` just the flags fit, each once, and the line may end; behind `max 2` no `ordered`; where `max` is wrong already, any flag.
pub fn flags_fit_once()
    ensures none_yet { filter (fits 5 (front_of_queue (codes "q max 1"))) fixed_words ≡ codes "highpri" ∷ codes "unbound" ∷ codes "cpu_intensive"
        ∷ codes "freezable" ∷ codes "ordered" ∷ codes "mem_reclaim" ∷ [] }
    ensures two_given { filter (fits 5 (front_of_queue (codes "q max 1 freezable highpri"))) fixed_words
        ≡ codes "unbound" ∷ codes "cpu_intensive" ∷ codes "ordered" ∷ codes "mem_reclaim" ∷ [] }
    ensures ordered { fits 5 (front_of_queue (codes "q max 2")) (codes "ordered") ≡ false }
    ensures wrong_already { fits 5 (front_of_queue (codes "q max 0")) (codes "ordered") ≡ true }
    ensures end { may_end 5 (front_of_queue (codes "q max 1")) ≡ true }
    ensures no_end { may_end 5 (front_of_queue (codes "q max 0")) ≡ false }
{}

/// Behind a new queue's name `max` alone fits, and then the numbers from 1 to 512.
pub fn max_fits_behind_a_name()
    ensures max { filter (fits 5 (front_of_queue (codes "q"))) fixed_words ≡ codes "max" ∷ [] }
    ensures no_number { number_fits 5 (front_of_queue (codes "q")) 1 ≡ false }
    ensures zero { number_fits 5 (front_of_queue (codes "q max")) 0 ≡ false }
    ensures one { number_fits 5 (front_of_queue (codes "q max")) 1 ≡ true }
    ensures greatest { number_fits 5 (front_of_queue (codes "q max")) 512 ≡ true }
    ensures too_great { number_fits 5 (front_of_queue (codes "q max")) 513 ≡ false }
    ensures no_end { may_end 5 (front_of_queue (codes "q max")) ≡ false }
{}

/// The limits of a number are those of its line.
pub fn limits_go_by_the_line()
    ensures cpus { number_fits 1 (codes "cpus") 16 ≡ true }
    ensures many_cpus { number_fits 1 (codes "cpus") 17 ≡ false }
    ensures workers { number_fits 2 (front_of_head (codes "workers")) 64 ≡ true }
    ensures many_workers { number_fits 2 (front_of_head (codes "workers")) 65 ≡ false }
    ensures burn { number_fits 8 (front_of_body (codes "burn")) 1000000 ≡ true }
    ensures long_burn { number_fits 8 (front_of_body (codes "burn")) 1000001 ≡ false }
    ensures cpu { number_fits 8 (front_of_body (codes "queue a")) 0 ≡ true }
    ensures no_such_cpu { number_fits 8 (front_of_body (codes "queue a")) 1 ≡ false }
{}

/// A declared name fits where one is wanted, and no other; where a new one is, each but those of its kind.
pub fn names_fit_by_their_kind()
    ensures work { fits 8 (front_of_body (codes "queue")) (codes "a") ≡ true }
    ensures no_queue { fits 8 (front_of_body (codes "queue")) (codes "q") ≡ false }
    ensures undeclared { fits 8 (front_of_body (codes "queue")) (codes "b") ≡ false }
    ensures new { fits 7 (after_work (codes "work")) (codes "b") ≡ true }
    ensures of_a_queue { fits 7 (after_work (codes "work")) (codes "q") ≡ true }
    ensures declared { fits 7 (after_work (codes "work")) (codes "a") ≡ false }
{}

/// Behind an instruction `*` fits, or the line ends; behind `*` a number of times.
pub fn times_fit_behind_an_instruction()
    ensures star { filter (fits 10 (front_of_actor (codes "tick"))) fixed_words ≡ codes "*" ∷ [] }
    ensures end { may_end 10 (front_of_actor (codes "tick")) ≡ true }
    ensures number { number_fits 10 (front_of_actor (codes "tick")) 5 ≡ false }
    ensures times { fits 10 (front_of_actor (codes "tick")) (codes "* 5") ≡ true }
    ensures no_times { fits 10 (front_of_actor (codes "tick")) (codes "* 0") ≡ false }
    ensures most { number_fits 10 (front_of_actor (codes "tick *")) 65535 ≡ true }
    ensures more { number_fits 10 (front_of_actor (codes "tick *")) 65536 ≡ false }
{}

/// A text fixed_and the names that its lines declare, each once, and the work whose body it opened last.
pub fn declared_names_are_known()
    ensures names { known_words (front_of_actor (codes "queue a 0")) ≡ fixed_and (codes "q" ∷ codes "a" ∷ codes "t" ∷ []) }
    ensures same_name { known_words (codes "queue a max 1\nwork a a\nactor a") ≡ fixed_and (codes "a" ∷ []) }
    ensures fixed_name { known_words (codes "queue ordered max 1") ≡ fixed_and [] }
    ensures body { last_body (codes "body a\nfinish\nbody b\nburn 1") ≡ Some (codes "b") }
    ensures no_body { last_body (codes "cpus 1") ≡ None }
{}

/// How many letters two words are apart.
pub fn letters_are_apart()
    ensures one_more { apart (codes "freezeable") (codes "freezable") ≡ 1 }
    ensures one_less { apart (codes "quue") (codes "queue") ≡ 1 }
    ensures two_changed { apart (codes "mial") (codes "mail") ≡ 2 }
    ensures same { apart (codes "mail") (codes "mail") ≡ 0 }
    ensures all { apart (codes "mail") (codes "b") ≡ 4 }
{}

/// The nearest word is meant, if at most half of the letters are apart; of equally near ones the first.
pub fn nearest_word_is_meant()
    ensures nearest { nearest (codes "mail" ∷ codes "blink" ∷ []) (codes "blnk") ≡ Some 1 }
    ensures first { nearest (codes "a1" ∷ codes "a2" ∷ []) (codes "a3") ≡ Some 0 }
    ensures meant { meant_among (codes "highpri" ∷ codes "freezable" ∷ []) (codes "freezeable") ≡ Some (codes "freezable") }
    ensures kernel { meant_among (codes "highpri" ∷ codes "unbound" ∷ []) (codes "WQ_UNBOUND") ≡ Some (codes "unbound") }
    ensures half { meant_among (codes "mail" ∷ []) (codes "mial") ≡ Some (codes "mail") }
    ensures too_far { meant_among (codes "mail" ∷ []) (codes "milx") ≡ None }
    ensures none { meant_among [] (codes "mail") ≡ None }
    ensures plain { plain_form (codes "WQ_MEM_RECLAIM") ≡ codes "mem_reclaim" }
    ensures order { nearest_first (codes "mail" ∷ codes "link" ∷ codes "blink" ∷ []) (codes "blnk") ≡ codes "blink" ∷ codes "mail" ∷ codes "link" ∷ [] }
    ensures no_word { nearest_first (codes "mail" ∷ codes "b" ∷ []) [] ≡ codes "mail" ∷ codes "b" ∷ [] }
{}
