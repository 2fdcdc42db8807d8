//! What is read is spelled so, and what is spelled so is read.

ghost use Rattle.std.specs.Prelude.{◌≡◌, ℕ, List, [], ◌∷◌, length, ◌<◌, ◌^◌};
ghost use Rattle.std.specs.Int.{w8, w16, w32, w64};
ghost use Rattle.byte_fields.specs.Field.{span_at, number_at, digits};
ghost use Rattle.byte_fields.specs.Codec.{IsCodec};
ghost use Rattle.byte_fields.specs.Cuts.{IsCut};
ghost use Rattle.byte_fields.specs.Records.{WholeRecordsAreRead, TornRecordsAreLeft, OnlyRecordsAreRead};
ghost use Rattle.byte_fields.specs.Records.{FaultyRecordsAreRefused, LeftBytesAreRefused, OnlyFrontsAreTorn};
ghost use Rattle.byte_fields.specs.Broken.{RulesAreOfTheirField, MeaningsAreOfTheirField, LaterFieldsAreRefusedLater};
ghost use Rattle.byte_fields.specs.Broken.{ItemsAreRefusedInTheirPlace};

/// One spelling for each span and each number, and one value for each spelling.
pub fn fields_are_spelled_once()
    ensures spans { (count : ℕ) → IsCodec (span_at count) (λ text. text) (λ text. length text ≡ count) }
    ensures bytes { IsCodec (number_at w8) (λ n. n ∷ []) (λ n. n < 2 ^ 8) }
    ensures two_bytes { IsCodec (number_at w16) (digits w16) (λ n. n < 2 ^ 16) }
    ensures four_bytes { IsCodec (number_at w32) (digits w32) (λ n. n < 2 ^ 32) }
    ensures eight_bytes { IsCodec (number_at w64) (digits w64) (λ n. n < 2 ^ 64) }
{}

/// Where the bytes end inside a span or a number, it is the faulty field.
pub fn fields_end_with_their_bytes()
    ensures spans { (count : ℕ) → IsCut (span_at count) (λ text. text) (λ text. length text ∷ []) (λ text. length text ≡ count) }
    ensures bytes { IsCut (number_at w8) (λ n. n ∷ []) (λ n. 1 ∷ []) (λ n. n < 2 ^ 8) }
    ensures two_bytes { IsCut (number_at w16) (digits w16) (λ n. 2 ∷ []) (λ n. n < 2 ^ 16) }
    ensures four_bytes { IsCut (number_at w32) (digits w32) (λ n. 4 ∷ []) (λ n. n < 2 ^ 32) }
    ensures eight_bytes { IsCut (number_at w64) (digits w64) (λ n. 8 ∷ []) (λ n. n < 2 ^ 64) }
{}

/// A value that breaks a rule is refused at the field of the rule, whatever stands before and behind it.
pub fn broken_rules_are_refused_at_their_field<S, A, B, E>()
    ensures rules { RulesAreOfTheirField A }
    ensures meanings { MeaningsAreOfTheirField A B E }
    ensures later { LaterFieldsAreRefusedLater A B }
    ensures items { ItemsAreRefusedInTheirPlace S A }
{}

/// Records to the end of the bytes: whole ones are read, a torn one is left, and a faulty one is refused at its field.
///
/// What is torn is the front of a record, and not the whole of it.
pub fn records_are_read_until_the_end<S, A>()
    ensures whole { WholeRecordsAreRead S A }
    ensures torn { TornRecordsAreLeft S A }
    ensures only { OnlyRecordsAreRead S A }
    ensures faulty { FaultyRecordsAreRefused S A }
    ensures left { LeftBytesAreRefused S A }
    ensures fronts { OnlyFrontsAreTorn }
{}
