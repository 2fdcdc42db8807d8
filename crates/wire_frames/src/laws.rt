//! What holds of frames: functions that do nothing, whose contracts are laws.

ghost use Rattle.std.specs.Prelude.{◌≡◌, ℕ, ◌≤◌, List, ◌++◌, length};
ghost use Rattle.byte_fields.specs.Codec.{IsBytes, IsCodec};
ghost use Rattle.tree_laws.specs.Broken.{BrokenFaults};
ghost use Rattle.wire_frames.specs.Limits.{max_frame};
ghost use Rattle.wire_frames.specs.declared.message.Message.{Message};
ghost use Rattle.tree_values.specs.Fault.{tree_fault};
ghost use Rattle.wire_frames.specs.Fault.{UnfitFits, FullFits, unfit_numbers, full_numbers, unfit_fault_at, full_fault_at};
ghost use Rattle.wire_frames.specs.Frame.{frame, IsValid};
ghost use Rattle.wire_frames.specs.Cause.{cause, CauseFits, cause_at};
ghost use Rattle.wire_frames.specs.Broken.{BrokenNumbers, BrokenBodies, BrokenCauses, LeftBytes};
ghost use Rattle.wire_frames.specs.Laws.{FilledStoresAreValid, SketchedStoresAreValid, LengthIsFirst, VersionIsSecond, KindIsThird};
ghost use Rattle.wire_frames.specs.Laws.{ClientIsFourth, FieldsAreBehindTheClient, MessagesStandBeforeWhatIsLeft};
ghost use Rattle.wire_frames.specs.Laws.{LimitsAgree, CutFramesNameTheField, KindsDecideReplies};

/// States that the limits of the code are those of the definitions.
pub fn limits_agree()
    ensures { LimitsAgree }
{}

/// States that, whatever follows it, a frame is the frame of one message, that no frame is longer than the most, and
/// that frames are bytes.
pub fn frames_are_apart()
    ensures apart { (m n : Message) (x y : List ℕ) → IsValid m → IsValid n → frame m ++ x ≡ frame n ++ y → (m ≡ n) × (x ≡ y) }
    ensures small { (m : Message) → IsValid m → length (frame m) ≤ max_frame }
    ensures bytes { (m : Message) → IsValid m → IsBytes (frame m) }
{}

/// States which stores are valid beside a valid operation, and which operations beside a valid store.
pub fn operations_stand_for_stores()
    ensures filled { FilledStoresAreValid }
    ensures sketched { SketchedStoresAreValid }
{}

/// States that kind, client and number, and of which entries it speaks, decide whether a reply answers a request.
pub fn kinds_decide_replies()
    ensures { KindsDecideReplies }
{}

/// States that each refusal that a message tells has one spelling, and each spelling one refusal.
pub fn faults_are_spelled_once()
    ensures unfit { IsCodec unfit_fault_at tree_fault UnfitFits }
    ensures full { IsCodec full_fault_at tree_fault FullFits }
{}

/// States that each cause has one spelling, and each spelling one cause.
pub fn causes_are_spelled_once()
    ensures { IsCodec cause_at cause CauseFits }
{}

/// States which frames are refused at their header, where a faulty field may begin, what stands before bytes that are
/// left over, and which field is faulty where a frame is cut short.
pub fn refusals_name_the_first_fault()
    ensures length { LengthIsFirst }
    ensures version { VersionIsSecond }
    ensures kind { KindIsThird }
    ensures client { ClientIsFourth }
    ensures fields { FieldsAreBehindTheClient }
    ensures trailing { MessagesStandBeforeWhatIsLeft }
    ensures cut { CutFramesNameTheField }
{}

/// States at which field a frame is refused whose number, body, told refusal or cause breaks a rule, whatever follows, and at
/// which byte a frame is that goes on behind its last field.
pub fn broken_rules_name_their_field()
    ensures numbers { BrokenNumbers }
    ensures bodies { BrokenBodies }
    ensures faults { BrokenFaults unfit_numbers × BrokenFaults full_numbers }
    ensures causes { BrokenCauses }
    ensures left { LeftBytes }
{}
