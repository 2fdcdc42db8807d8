//! What is read is spelled so, and what is spelled so is read.

ghost use Rattle.std.specs.Prelude.{◌<◌, ◌^◌, ℕ, List};
ghost use Rattle.byte_fields.specs.Codec.{IsBytes, IsCodec};
ghost use Rattle.byte_fields.specs.Cuts.{IsCut};
ghost use Rattle.mod_log.specs.declared.origin.Origin.{Origin};
ghost use Rattle.mod_log.specs.declared.sketched.SketchEffect.{SketchEffect};
ghost use Rattle.mod_log.specs.Origin.{origin, OriginFits};
ghost use Rattle.mod_log.specs.Log.{entry};
ghost use Rattle.mod_log.specs.Spelling.{sketch_effect, sketch_effects, SketchEffectFitsIn, SketchEffectsFitWithin, SketchEffectsFit};
ghost use Rattle.mod_log.specs.Reading.{origin_at, entry_at, EntryFits, sketch_effect_at, sketch_effects_within};
ghost use Rattle.mod_log.specs.Fields.{origin_fields, entry_fields, sketch_effect_fields, sketch_effects_fields};
ghost use Rattle.mod_log.specs.Broken.{BrokenOrigins, BrokenEntries, BrokenSketchEffects, BrokenSketchLists};

/// States that each origin and each entry have one spelling, and each spelling one origin, or one entry of a number.
pub fn entries_are_spelled_once()
    ensures origins { IsCodec origin_at origin OriginFits }
    ensures entries { (number : ℕ) → IsCodec (entry_at number) entry (EntryFits number) }
{}

/// States that, where the bytes end inside an origin or an entry, the field in which they end is the faulty one.
pub fn entries_end_with_their_bytes()
    ensures origins { IsCut origin_at origin origin_fields OriginFits }
    ensures entries { (number : ℕ) → IsCut (entry_at number) entry entry_fields (EntryFits number) }
{}

/// States at which field an origin or an entry that breaks a rule is refused, whatever stands before and behind it.
pub fn broken_entries_are_refused_at_their_field()
    ensures origins { BrokenOrigins }
    ensures entries { BrokenEntries }
{}

/// States that spelled origins and spelled sketched effects are bytes.
pub fn origins_are_bytes()
    ensures origins { (o : Origin) → OriginFits o → IsBytes (origin o) }
    ensures sketched { (es : List SketchEffect) → SketchEffectsFit es → IsBytes (sketch_effects es) }
{}

/// States that sketched effects have one spelling, and each spelling sketched effects.
pub fn sketched_effects_are_spelled_once()
    ensures effect { (room : ℕ) → IsCodec (sketch_effect_at room) sketch_effect (SketchEffectFitsIn room) }
    ensures effects_within { (most room : ℕ) → most < 2 ^ 32
        → IsCodec (sketch_effects_within most room) sketch_effects (SketchEffectsFitWithin most room) }
{}

/// States that, where the bytes end inside sketched effects, the field in which they end is the faulty one.
pub fn sketched_effects_end_with_their_bytes()
    ensures effect { (room : ℕ) → IsCut (sketch_effect_at room) sketch_effect sketch_effect_fields (SketchEffectFitsIn room) }
    ensures effects_within { (most room : ℕ) → most < 2 ^ 32 → IsCut (sketch_effects_within most room) sketch_effects sketch_effects_fields
        (SketchEffectsFitWithin most room) }
{}

/// States at which field sketched effects that break a rule are refused, whatever stands before and behind them.
pub fn broken_sketched_effects_are_refused_at_their_field()
    ensures effects { BrokenSketchEffects }
    ensures lists { BrokenSketchLists }
{}
