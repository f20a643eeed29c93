//! What is promised of the files themselves.

ghost use Rattle.std.specs.Prelude.{◌≡◌, ℕ, List, true};
ghost use Rattle.struct_ir.specs.Nodes.{Ir};
ghost use Rattle.struct_ir.specs.Placed.{all_placed};
ghost use Rattle.formats.specs.Formats.{whole};
ghost use Rattle.formats.specs.Laws.{OneSpelling, WholeAt};
ghost use Rattle.code_file.specs.Files.{file};
ghost use Rattle.code_file.specs.Calls.{ir_filled, ir_bare};

/// Each code has one spelling, no spelling is that of two codes, and none goes on another. What is
/// read of all the bytes is spelled so, and where they are no file it is said where the longest
/// front ends that begins one.
pub fn files_are_exact()
    ensures one { (depth : ℕ) → OneSpelling (file depth) }
    ensures exact { (depth : ℕ) (bytes : List ℕ) → WholeAt (file depth) bytes (whole (file depth) bytes) }
{}

/// Code that was placed is what filling its calls' lists gives of it without them: the file need
/// not hold them.
pub fn placed_code_is_its_filling()
    ensures placed { (p : Ir) → all_placed p ≡ true → ir_filled (ir_bare p) ≡ p }
{}
