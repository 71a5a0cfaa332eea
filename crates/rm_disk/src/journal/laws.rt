//! What follows from the layout of a journal. Proofs above may cite the laws as lemmas of specs/Journal/EntryLemmas.

ghost use Rattle.std.specs.Prelude.{◌≡◌, ◌⊎◌, ℕ, ◌+◌, ◌∷◌, [], ◌++◌, List, true, length, codes};
ghost use Rattle.std.specs.List.{flat_map};
ghost use Rattle.rm_disk.specs.Call.{Call};
ghost use Rattle.rm_disk.specs.Image.{MayLeave};
ghost use Rattle.rm_disk.specs.Journal.Entries.{AllFit, Bank, block, bytes_of, first_bank, first_bytes, list_of};
ghost use Rattle.rm_disk.specs.Journal.Entries.{StandsAsBefore, StandsAt, StandsForEither, StandsForOneOf, gates_from};
ghost use Rattle.rm_disk.specs.Journal.Journal.{Fits, with_block, with_entry, with_list};
ghost use Rattle.rm_disk.specs.Journal.JournalState.{JournalState, end_of};

/// Bytes stand for at most one list of entries, in one bank.
pub fn bytes_stand_for_one_list()
    ensures { (x y : Bank) (a b : List (List ℕ)) (bytes : List ℕ) → StandsAt x a bytes → StandsAt y b bytes
        → (x ≡ y) × (a ≡ b) }
{}

/// Bytes of the layout before stand for at most one list too. So `import` answers one thing of bytes, but for want of
/// memory and a disk that fails.
pub fn bytes_stood_for_one_list()
    ensures { (a b : List (List ℕ)) (bytes : List ℕ) → StandsAsBefore a bytes → StandsAsBefore b bytes → a ≡ b }
{}

/// Each image of a disk gives the whole journal that fits it: its bank, its entries, and with them the places of their
/// gates. One that was left inside of `append` gives the journal as it was or with the entry, and one inside of
/// `compact` the journal as it was or the fresh one.
pub fn an_image_gives_the_journal()
    ensures now { (bank : Bank) (entries all : List (List ℕ)) (past : List Call) (journal : JournalState)
        (image : List ℕ) → Fits entries past journal → MayLeave past image → StandsAt bank all image →
        (bank ≡ journal.bank) × (all ≡ entries) × (journal.gates ≡ gates_from bank.start all) }
    ensures append { (bank : Bank) (entries all : List (List ℕ)) (past : List Call) (journal : JournalState)
        (entry image : List ℕ) → Fits entries past journal → StandsForEither journal.bank entries entry image →
        StandsAt bank all image → (bank ≡ journal.bank)
        × (((all ≡ entries) × (journal.gates ≡ gates_from bank.start all)) ⊎ ((all ≡ entries ++ entry ∷ [])
        × ((with_entry journal (length entry)).gates ≡ gates_from bank.start all))) }
    ensures compact { (bank next : Bank) (entries fresh all : List (List ℕ)) (past : List Call)
        (journal : JournalState) (image : List ℕ) → Fits entries past journal →
        StandsForOneOf journal.bank entries next fresh image → StandsAt bank all image →
        ((bank ≡ journal.bank) × (all ≡ entries) × (journal.gates ≡ gates_from bank.start all))
        ⊎ ((bank ≡ next) × (all ≡ fresh)) }
{}

/// A journal has as many gates as entries.
pub fn each_entry_has_a_gate()
    ensures { (at : ℕ) (entries : List (List ℕ)) → length (gates_from at entries) ≡ length entries }
{}

/// With one entry more a journal has one gate more, where the definition by entries has it.
pub fn gates_grow_with_entries()
    ensures { (journal : JournalState) (entries : List (List ℕ)) (entry : List ℕ) →
        journal.gates ≡ gates_from journal.bank.start entries →
        (with_entry journal (length entry)).gates ≡ gates_from journal.bank.start (entries ++ entry ∷ []) }
{}

/// The closed gate stands behind the blocks, which begin at the start.
pub fn closed_gate_ends_the_list()
    ensures { (journal : JournalState) (entries : List (List ℕ)) →
        journal.gates ≡ gates_from journal.bank.start entries →
        end_of journal ≡ journal.bank.start + length (flat_map block entries) }
{}

/// Bytes with nothing behind their closed gate are a journal, and with one entry more nothing stands behind it either.
pub fn nothing_stands_behind()
    ensures stands { (entries : List (List ℕ)) → AllFit entries → StandsAt first_bank entries (bytes_of entries) }
    ensures grows { (front : List ℕ) (entries : List (List ℕ)) (entry : List ℕ) →
        with_block (front ++ list_of entries) (length front + length (flat_map block entries)) entry
        ≡ front ++ list_of (entries ++ entry ∷ []) }
{}

/// A journal with the one entry `ab`, byte by byte, which `import` makes of the 16 bytes of the layout before; and what
/// `compact` with the one entry `c` leaves of it: the list behind the old one, at 33, the second start, the selector 1.
pub fn worked_bytes()
    ensures one { with_block first_bytes 25 (97 ∷ 98 ∷ []) ≡ codes "WSRMJNL2" ++ 0 ∷ 0 ∷ 0 ∷ 0 ∷ 0 ∷ 0 ∷ 0 ∷ 0 ∷ 25
        ∷ 0 ∷ 0 ∷ 0 ∷ 0 ∷ 0 ∷ 0 ∷ 0 ∷ 25 ∷ 1 ∷ 0 ∷ 0 ∷ 0 ∷ 2 ∷ 97 ∷ 98 ∷ 0 ∷ [] }
    ensures imported { bytes_of ((97 ∷ 98 ∷ []) ∷ []) ≡ with_block first_bytes 25 (97 ∷ 98 ∷ []) }
    ensures before { StandsAsBefore ((97 ∷ 98 ∷ []) ∷ []) (codes "WSRMJNL1" ++ 1 ∷ 0 ∷ 0 ∷ 0 ∷ 2 ∷ 97 ∷ 98 ∷ 0 ∷ []) }
    ensures two { with_list (with_block first_bytes 25 (97 ∷ 98 ∷ [])) (record { second = true; start = 33 })
        ((99 ∷ []) ∷ []) ≡ codes "WSRMJNL2" ++ 1 ∷ 0 ∷ 0 ∷ 0 ∷ 0 ∷ 0 ∷ 0 ∷ 0 ∷ 25
        ∷ 0 ∷ 0 ∷ 0 ∷ 0 ∷ 0 ∷ 0 ∷ 0 ∷ 33 ∷ 1 ∷ 0 ∷ 0 ∷ 0 ∷ 2 ∷ 97 ∷ 98 ∷ 0 ∷ 1 ∷ 0 ∷ 0 ∷ 0 ∷ 1 ∷ 99 ∷ 0 ∷ [] }
{}
