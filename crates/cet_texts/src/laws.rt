//! What the assembler makes of the text of an instruction.

ghost use Rattle.std.specs.Prelude.{◌≡◌, true, []};
ghost use Rattle.cet_isa.specs.Canonical.{canonical_spelling};
ghost use Rattle.cet_isa.specs.Spelled.{has_spelling, InstrFits};
ghost use Rattle.cet_isa.specs.declared.instructions.Instr.{Instr};
ghost use Rattle.cet_encode.specs.Text.{text_of};
ghost use Rattle.cet_syntax.specs.Instructions.{no_fixups};
ghost use Rattle.cet_syntax.specs.Line.{line_of, Code};
ghost use Rattle.cet_asm.specs.Layout.{text_start};
ghost use Rattle.cet_asm.specs.Program.{IsProgram};

/// The text of an instruction is a line that states that instruction, and a program of that instruction alone,
/// which starts where texts start and has the mark 2.
pub fn text_is_read_back()
    ensures line { (i : Instr) → InstrFits i → has_spelling i ≡ true
        → line_of (text_of i) ≡ (record { labels = []; statement = Code i no_fixups }) }
    ensures program { (i : Instr) → InstrFits i → has_spelling i ≡ true
        → IsProgram (text_of i) (record { text = canonical_spelling i; static_data = []; entry = text_start; mark = 2 }) }
{}
