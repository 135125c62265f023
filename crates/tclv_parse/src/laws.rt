//! Laws of the definitions that the readers of this crate keep. Each is the contract of a function
//! that does nothing.

ghost use Rattle.std.specs.Prelude.{◌≡◌, ◌∷◌, ◌++◌, ℕ, Bool, true, false, List, Ok};
ghost use Rattle.tclv_text.specs.Cursors.{sign};
ghost use Rattle.tclv_text.specs.Quotes.{fits_braces, in_braces};
ghost use Rattle.tclv_parse.specs.declared.runs.Form.{Form};
ghost use Rattle.tclv_parse.specs.declared.tree.Script.{out-Script};
ghost use Rattle.tclv_parse.specs.Runs.{ends_word};
ghost use Rattle.tclv_parse.specs.Grammar.{commands, fault, deeper_by, braced, braced_step, text_part, word_of, parts, parts_step};
ghost use Rattle.tclv_parse.specs.Grammar.{word, words, words_step, script, script_step};
ghost use Rattle.tclv_parse.specs.Levels.{BoundsGrow, ReadersHaveLevels, ScriptsHaveLevels};

/// The fault behind the pieces of a text is the one behind its commands: `Tokens`, `is_complete` and
/// `parse` speak of the same fault.
pub fn pieces_and_commands_have_one_fault()
    ensures { (t : List ℕ) → (out-Script (commands t)).fault ≡ fault t }
{}

/// In the tree of a script at most 100 brackets and indices stand in one another, and so in what the
/// readers give that other grammars use. A greater bound holds as well: so whoever walks it may count levels down from there and never comes to the end.
pub fn scripts_have_levels()
    ensures scripts { ScriptsHaveLevels }
    ensures readers { ReadersHaveLevels }
    ensures more { BoundsGrow }
{}

/// The rules of the grammar are equations: a word in braces, the parts of a word, the words of a command
/// and a script are each what its rule says, where what follows is read by the same rule. How deep the
/// definitions recur plays no part.
pub fn rules_are_equations()
    ensures braced { (t : List ℕ) (level : ℕ) → braced t level ≡ braced_step braced t level }
    ensures parts { (whole depth : ℕ) (inner : Bool) (form : Form) (t : List ℕ) → let d = deeper_by whole depth in
        parts d inner form t ≡ parts_step d inner form (parts d inner form) t }
    ensures words { (whole depth : ℕ) (inner : Bool) (t : List ℕ) → let d = deeper_by whole depth in
        words d inner t ≡ words_step d inner (words d inner) t }
    ensures script { (whole depth : ℕ) (inner : Bool) (t : List ℕ) → let d = deeper_by whole depth in
        script whole d inner t ≡ script_step whole d inner (script whole d inner) t }
{}

/// A balanced text without a backslash before a newline is what a word in braces reads, up to the brace
/// that closes it; and where a word may end behind that brace, the whole is one word, of that text.
///
/// A text is balanced where its braces match and it doesn't end in the middle of a pair: a backslash and
/// the character behind it count as one, which is no brace.
pub fn a_balanced_text_is_read_as_it_is()
    ensures braced { (t rest : List ℕ) → fits_braces (0, false) t ≡ true → (braced (t ++ 125 ∷ rest) 0).1 ≡ Ok (t, rest) }
    ensures word { (whole depth : ℕ) (inner : Bool) (t rest : List ℕ) → fits_braces (0, false) t ≡ true → ends_word inner (sign rest) ≡ true
        → (word (deeper_by whole depth) inner (in_braces t ++ rest)).1 ≡ Ok (word_of false (text_part t), rest) }
{}
