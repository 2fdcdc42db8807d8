//! What is read is spelled so, and what is spelled so is read.

ghost use Rattle.std.specs.Prelude.{◌≡◌, ◌<◌, ◌≤◌, ◌^◌, ℕ, List, Ok, length};
ghost use Rattle.byte_fields.specs.Codec.{IsBytes, IsCodec};
ghost use Rattle.byte_fields.specs.Cuts.{IsCut};
ghost use Rattle.file_paths.specs.Path.{FilePath, IsPath, path_of, path_text};
ghost use Rattle.tree_values.specs.declared.node.Effect.{Effect};
ghost use Rattle.tree_values.specs.declared.node.Base.{Base};
ghost use Rattle.tree_values.specs.declared.node.TreeError.{TreeError};
ghost use Rattle.tree_values.specs.Tree.{Volume, IsTree};
ghost use Rattle.file_paths.specs.Spelling.{path, content};
ghost use Rattle.tree_values.specs.Spelling.{effect, effects, bases, rows, EffectFitsOf};
ghost use Rattle.tree_values.specs.Spelling.{EffectsFitWithin, EffectsFit, AreBasesOf, AreRowsOf};
ghost use Rattle.file_paths.specs.Fields.{path_fields, content_fields};
ghost use Rattle.tree_values.specs.Fields.{effect_fields, effects_fields, bases_fields, rows_fields};
ghost use Rattle.file_paths.specs.Broken.{BrokenTexts, BrokenLengths};
ghost use Rattle.tree_laws.specs.Broken.{BrokenEffects, BrokenEffectLists, BrokenBases, BrokenRows, BrokenRowLists, all_faults};
ghost use Rattle.tree_laws.specs.Broken.{BrokenFaults};
ghost use Rattle.file_paths.specs.Reading.{path_at, content_at};
ghost use Rattle.tree_values.specs.Fault.{tree_fault, fault_fields, FaultFits, FaultFitsOf, fault_at, fault_of};
ghost use Rattle.tree_values.specs.Reading.{effect_in, effects_within, effects_at, bases_at, rows_in, rows_at};
ghost use Rattle.tree_values.specs.declared.format.Format.{Format};

/// States that each value has one spelling, and each spelling one value.
pub fn parts_are_spelled_once()
    ensures effect { (format : Format) (room : ℕ) → IsCodec (effect_in format room) effect (EffectFitsOf format room) }
    ensures effects_within { (most room : ℕ) → most < 2 ^ 32 → IsCodec (effects_within most room) effects (EffectsFitWithin most room) }
    ensures effects { IsCodec effects_at effects EffectsFit }
    ensures bases { (touched : List FilePath) → length touched < 2 ^ 32 → IsCodec (bases_at touched) bases (AreBasesOf touched) }
    ensures rows { (format : Format) → IsCodec (rows_in format) rows (λ rs. IsTree rs × AreRowsOf format rs) }
    ensures all_rows { IsCodec rows_at rows IsTree }
    ensures fault { IsCodec fault_at tree_fault FaultFits }
    ensures fault_of { (numbers : List ℕ) → IsCodec (fault_of numbers) tree_fault (FaultFitsOf numbers) }
    ensures all_faults { fault_at ≡ fault_of all_faults }
{}

/// States that values that have a spelling are spelled in bytes.
pub fn parts_are_spelled_in_bytes()
    ensures effects { (most room : ℕ) (es : List Effect) → EffectsFitWithin most room es → IsBytes (effects es) }
    ensures bases { (touched : List FilePath) (bs : List Base) → AreBasesOf touched bs → IsBytes (bases bs) }
    ensures rows { (rs : Volume) → IsTree rs → IsBytes (rows rs) }
    ensures faults { (fault : TreeError) → FaultFits fault → IsBytes (tree_fault fault) }
{}

/// States that, where the bytes end inside a value, the field in which they end is the faulty one.
pub fn parts_end_with_their_bytes()
    ensures effect { (format : Format) (room : ℕ) → IsCut (effect_in format room) effect effect_fields (EffectFitsOf format room) }
    ensures effects_within { (most room : ℕ) → most < 2 ^ 32
        → IsCut (effects_within most room) effects effects_fields (EffectsFitWithin most room) }
    ensures effects { IsCut effects_at effects effects_fields EffectsFit }
    ensures bases { (touched : List FilePath) → length touched < 2 ^ 32 → IsCut (bases_at touched) bases bases_fields (AreBasesOf touched) }
    ensures rows { (format : Format) → IsCut (rows_in format) rows rows_fields (λ rs. IsTree rs × AreRowsOf format rs) }
    ensures all_rows { IsCut rows_at rows rows_fields IsTree }
    ensures fault { IsCut fault_at tree_fault fault_fields FaultFits }
    ensures fault_of { (numbers : List ℕ) → IsCut (fault_of numbers) tree_fault fault_fields (FaultFitsOf numbers) }
{}

/// States at which field a part that breaks a rule is refused, whatever stands before and behind it.
pub fn broken_parts_are_refused_at_their_field()
    ensures effects { BrokenEffects }
    ensures effect_lists { BrokenEffectLists }
    ensures bases { BrokenBases }
    ensures rows { BrokenRows }
    ensures row_lists { BrokenRowLists }
    ensures faults { (numbers : List ℕ) → BrokenFaults numbers }
{}
