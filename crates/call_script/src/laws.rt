ghost use Rattle.std.specs.Prelude.{◌≡◌, ℕ, ◌<◌, ◌≤◌, ◌^◌, List, [], ◌∷◌, ◌++◌, length, decimal, Some};
ghost use Rattle.call_script.specs.Numerals.{number_of};
ghost use Rattle.call_script.specs.Texts.{text_of, printed};
ghost use Rattle.call_script.specs.Lines.{of_line, lines, Asks, NoBreak};
ghost use Rattle.call_script.specs.Printing.{IsText, IsInRange, spelling};
ghost use Rattle.table_model.specs.Ask.{Ask};

/// What a reply prints as a name or a text is read back by the grammar as the same bytes.
pub fn names_are_read_back()
    ensures { (bytes : List ℕ) → IsText bytes → text_of (printed bytes) ≡ Some bytes }
{}

/// What a reply prints as a number is read back by the grammar as the same number.
pub fn numbers_are_read_back()
    ensures { (n : ℕ) → n < 2 ^ 64 → number_of (decimal n) ≡ Some n }
{}

/// Each call whose names, texts and numbers are in range is spelled by a line, where that has 4,096 bytes at
/// most.
pub fn each_call_is_spelled()
    ensures { (ask : Ask) → IsInRange ask → length (spelling ask) ≤ 4096 → of_line (spelling ask) ≡ Asks ask }
{}

/// The first line of a script is what stands before its first byte 10, or all of it.
pub fn lines_are_parted()
    ensures first { (line more : List ℕ) → NoBreak line → lines (line ++ 10 ∷ more) ≡ line ∷ lines more }
    ensures last { (line : List ℕ) → 0 < length line → NoBreak line → lines line ≡ line ∷ [] }
{}
