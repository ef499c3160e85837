//! Laws of the lines and the grammar of a script. Each function does nothing: its contract is what is proved.

ghost use Rattle.std.specs.Prelude.{◌≡◌, ◌<◌, ◌≤◌, ℕ, List, [], ◌∷◌, ◌++◌, length, Option, Ok, Err, ◌↔◌};
ghost use Rattle.script_reader.specs.Grammar.{request_of};
ghost use Rattle.script_reader.specs.Lines.{lines_of};
ghost use Rattle.script_reader.specs.Words.{words};
ghost use Rattle.script_reader.specs.declared.command.Request.{Request};
ghost use Rattle.script_reader.specs.declared.command.Fault.{Fault};
ghost use Rattle.script_reader.specs.Next.{Went};
ghost use Rattle.script_reader.specs.State.{reader_of, line_of, IsFresh, IsStill};
ghost use Rattle.script_reader.specs.Script.{HasRead, IsReadOut, BreaksOff};
ghost use Rattle.script_reader.specs.declared.lines.Found.{Found};
ghost use Rattle.script_reader.specs.declared.lines.Found.TheVariants as found;
ghost use Rattle.script_reader.specs.declared.lines.Lines.{Lines};
ghost use Rattle.script_reader.specs.Ends.{IsLast};
ghost use Rattle.script_reader.specs.Lined.{IsLined};
ghost use Rattle.script_reader.specs.Spelling.{IsParted, LineSpells, LineMisspells};

use std::io::Read;

/// The lines of a script stand between newlines, and the words of a line between separators.
pub fn lines_and_words_are_parts()
    ensures lines { (text : List ℕ) (ls : List (List ℕ)) → (lines_of text ≡ ls) ↔ IsLined ls text }
    ensures words { (line : List ℕ) (ws : List (List ℕ)) → (words line ≡ ws) ↔ IsParted ws line }
{}

/// Each answer is the next line of the bytes, in whatever pieces the reader gives them.
pub fn lines_come_in_order<R: Read>()
    ensures begun { (reader : R) (lines : Lines R) → IsFresh reader lines → HasRead R.remaining (R.remaining reader) lines [] }
    ensures line { (first : Option (List ℕ)) (old new : Lines R) (heard : List (List ℕ))
        → HasRead R.remaining first old heard
        → Went R.remaining old new found.Line
        → HasRead R.remaining first new (heard ++ line_of new ∷ []) × (length (line_of new) ≤ 65536) }
    ensures long { (first : Option (List ℕ)) (old new : Lines R) (heard : List (List ℕ))
        → HasRead R.remaining first old heard
        → Went R.remaining old new found.Long
        → (line : List ℕ) × HasRead R.remaining first new (heard ++ line ∷ []) × (65536 < length line) }
    ensures end { (first : Option (List ℕ)) (old new : Lines R) (heard : List (List ℕ))
        → HasRead R.remaining first old heard
        → Went R.remaining old new found.End
        → IsReadOut first (R.remaining (reader_of new)) heard }
    ensures fault { (first : Option (List ℕ)) (old new : Lines R) (heard : List (List ℕ))
        → HasRead R.remaining first old heard
        → Went R.remaining old new found.Read
        → BreaksOff first (R.remaining (reader_of new)) heard found.Read }
    ensures too_long { (first : Option (List ℕ)) (old new : Lines R) (heard : List (List ℕ))
        → HasRead R.remaining first old heard
        → Went R.remaining old new found.TooLong
        → BreaksOff first (R.remaining (reader_of new)) heard found.TooLong }
{}

/// After the end, a failed read or a script that is too long, the answer stays the same, and nothing is read.
pub fn the_end_stays<R: Read>()
    ensures { (old mid new : Lines R) (answer again : Found)
        → Went R.remaining old mid answer → IsLast answer → Went R.remaining mid new again
        → (again ≡ answer) × IsStill mid new }
{}

/// If a line is read as a command, it spells this command, and the reverse. A fault has its cause, the first from the left.
pub fn reading_is_spelling()
    ensures command { (line : List ℕ) (c : Request) → (request_of line ≡ Ok c) ↔ LineSpells line c }
    ensures fault { (line : List ℕ) (f : Fault) → (request_of line ≡ Err f) ↔ LineMisspells line f }
{}
