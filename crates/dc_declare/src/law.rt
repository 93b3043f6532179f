//! What is true of all declared names.

ghost use Rattle.std.specs.Prelude.{IsTrue};
ghost use Rattle.std.specs.List.{list_all};
ghost use Rattle.dc_declare.specs.Declarations.{symbols_of};
ghost use Rattle.dc_declare.specs.Tables.{are_apart};
ghost use Rattle.dc_tree.specs.Blocks.{Source};
ghost use Rattle.dc_tree.specs.Symbols.{is_sound};

/// The declared names of a program are sound, and no scope has a name twice.
pub fn declared_names_are_sound_and_apart()
    ensures sound { (source : Source) → IsTrue (list_all is_sound (symbols_of source)) }
    ensures apart { (source : Source) → IsTrue (are_apart (symbols_of source)) }
{}
