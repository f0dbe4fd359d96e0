ghost use Rattle.std.specs.Prelude.{◌≡◌, ℕ, ◌<◌, ◌≤◌, List, ◌∷◌, ◌++◌, length, true, false, Ok, IsErr};
ghost use Rattle.front_words.specs.Tokens.{Part, parts, places, Twice};
ghost use Rattle.front_words.specs.Pieces.{Piece, line, AreFree};
ghost use Rattle.front_words.specs.Asking.{asked_by, in_slot};
ghost use Rattle.front_words.specs.Settling.{settled, needs_found, end_of, KeepsNumbers, same_numbers, no_rival, agreeing, writes, MayBeWritten};
ghost use Rattle.front_words.specs.Scripts.{working};
ghost use Rattle.front_words.specs.declared.asked.Asked.{Asked};
ghost use Rattle.front_words.specs.declared.option.Slot.{Slot};
ghost use Rattle.front_words.specs.declared.settling.Candidate.{Candidate};
ghost use Rattle.front_words.specs.declared.settling.Volume.{Volume};

/// An option means the same wherever it stands: of two neighbours of which at least one is an option with its value, either may come first.
/// The line then asks for the same, and has the same words in their places and the same value for each option.
pub fn options_stand_in_any_order()
    ensures asked { (before behind : List Piece) (one other : Piece) → AreFree one other →
        asked_by (parts (line (before ++ one ∷ other ∷ behind))) ≡ asked_by (parts (line (before ++ other ∷ one ∷ behind))) }
    ensures named { (before behind : List Piece) (one other : Piece) → AreFree one other →
        places (parts (line (before ++ one ∷ other ∷ behind))) ≡ places (parts (line (before ++ other ∷ one ∷ behind))) }
    ensures given { (before behind : List Piece) (one other : Piece) (slot : Slot) → AreFree one other →
        in_slot slot (parts (line (before ++ one ∷ other ∷ behind))) ≡ in_slot slot (parts (line (before ++ other ∷ one ∷ behind))) }
{}

/// A line that gives an option twice is refused, whatever else it says.
pub fn an_option_twice_is_refused()
    ensures { (all : List Part) (slot : Slot) → in_slot slot all ≡ Twice → IsErr (asked_by all) }
{}

/// Numbers that a line gives are those of the volume that it means. So a size that is no whole number of blocks is never rounded.
pub fn given_numbers_are_kept()
    ensures { (asked : Asked) (length : ℕ) (found : List Candidate) (v : Volume) → settled asked length found ≡ Ok v → KeepsNumbers asked v }
{}

/// Of two volumes that were found and differ, at most one is such that the other leaves no doubt of it. So a line that would change its volume
/// means at most one.
pub fn a_changed_volume_is_one()
    ensures { (c d : Candidate) → no_rival c d ≡ true → no_rival d c ≡ true → same_numbers c d ≡ true }
{}

/// A line that writes and doesn't give all numbers takes a volume that was found only where no other one leaves doubt of it, at most one of its
/// blocks lacks its magic, no more of its ids have two header pages than a power cut leaves, and no file is damaged, or `--force` says that
/// these may be taken. A check with `--repair` is there for damaged ones.
pub fn a_written_volume_is_safe()
    ensures { (asked : Asked) (length : ℕ) (found : List Candidate) (v : Volume) → writes asked.word asked.repairs ≡ true → needs_found asked ≡ true →
        settled asked length found ≡ Ok v → MayBeWritten asked (agreeing asked found) v }
{}

/// Each byte of the volume that a line means is among the first 2^32 - 1 of the file, which are reached.
pub fn volumes_are_in_reach()
    ensures { (asked : Asked) (length : ℕ) (found : List Candidate) (v : Volume) → settled asked length found ≡ Ok v → end_of v ≤ 4294967295 }
{}

/// A line that gives all numbers of its volume, or by a preset, means that volume whatever the file holds.
pub fn known_numbers_ask_for_no_look()
    ensures { (asked : Asked) (length : ℕ) (found other : List Candidate) → needs_found asked ≡ false →
        settled asked length found ≡ settled asked length other }
{}

/// A working name is another name of the same length, and turned again it is the name.
pub fn working_names_are_others()
    ensures again { (b : ℕ) (bs : List ℕ) → b < 256 → working (working (b ∷ bs)) ≡ b ∷ bs }
    ensures other { (b : ℕ) (bs : List ℕ) → working (b ∷ bs) ≡ b ∷ bs → ⊥ }
    ensures length { (name : List ℕ) → length (working name) ≡ length name }
{}
