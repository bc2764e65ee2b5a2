//! What words the relation of a file has, as a function that does nothing.

ghost use Rattle.std.specs.Prelude.{◌↔◌, ℕ, List, map};
ghost use Rattle.node_table.specs.Table.{Table};
ghost use Rattle.mv_encoding.specs.Spots.{spelled};
ghost use Rattle.net_model.specs.Files.{File, FileWords};
ghost use Rattle.net_frame.specs.Placing.{FileSpots};
ghost use Rattle.det_core.specs.Automata.{BitWord};
ghost use Rattle.subset_build.specs.Relations.{relation_of, HasRun};
ghost use Rattle.relation_words.specs.NetRelations.{IsRelationOf};

/// The relation has a run on bits exactly where the letters that they spell are a word of the file.
pub fn relations_have_the_words_of_files()
    ensures { (t : Table) (file : File) (spots : FileSpots) (parts : List ℕ) (init acc : ℕ) (keep : List ℕ) → IsRelationOf t file spots parts init acc keep
        → (word : BitWord) → HasRun (relation_of t parts init acc keep spots.back) word ↔ FileWords file (map (spelled spots.letters) word) }
{}
