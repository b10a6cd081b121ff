// What holds of frames: statements, each proved as the contract of a function that does nothing.
ghost use Rattle.std.specs.Prelude.{◌≡◌, ◌<◌, ℕ, List, ◌++◌, ◌∷◌, [], None, Option, Some, length, map, slice_get, slice_set};
ghost use Rattle.ce_base.specs.declared.fault.Fault.{Fault};
ghost use Rattle.rule_tokens.specs.declared.callback.CallName.{CallName};
ghost use Rattle.rule_lines.specs.Acts.{Act};
ghost use Rattle.rule_lines.specs.declared.line.Cmd.{Cmd};
ghost use Rattle.ce_events.specs.declared.event.Event.{Event};
ghost use Rattle.ce_algorithms.specs.declared.given.Given.{Given};
ghost use Rattle.ce_algorithms.specs.Model.{model};
ghost use Rattle.ce_algorithms.specs.Session.{command};
ghost use Rattle.ce_algorithms.specs.State.{State};
ghost use Rattle.ce_algorithms.specs.Steps.{Outcome};
ghost use Rattle.ce_algorithms.specs.Written.{behind_in};
ghost use Rattle.ce_frames.specs.Frames.{Frame};
ghost use Rattle.ce_frames.specs.Handing.{nothing};
ghost use Rattle.ce_frames.specs.After.{after};
ghost use Rattle.ce_frames.specs.Places.{Behaviour, Body, Held, Homes, IsTopmost, NoneOf, Place, Stands, Wait, held_in, holding, home_of, seen};
ghost use Rattle.ce_frames.specs.Rest.{WaitEnd, Over, Threw, Went, outcome_of, rest};
ghost use Rattle.ce_frames.specs.Work.{work};
ghost use Rattle.ce_frames.specs.Turned.{left, to_come};
ghost use Rattle.ce_frames.specs.Turns.{turn};
ghost use Rattle.ce_frames.specs.Whole.{CatchesBlind, GoesBlind, whole, whole_turned};
ghost use Rattle.ce_frames.specs.Loop.{command_turn, looped};

/// The machine is the model: a command, by the loop over frames, comes to what the algorithms come to, whether
/// it ends with its reply or with its fuel.
#[tactic(auto, using(crate::proofs::Looping::looped_is))]
pub fn the_loop_is_the_model()
    ensures { (line : ℕ) (c : Cmd) (s : State) → looped line c s ≡ nothing (command model line c s) }
{}

/// What the first turn of a command leaves to come is the command.
#[tactic(auto, using(crate::proofs::Looping::begun_is))]
pub fn a_command_begins()
    ensures { (line : ℕ) (c : Cmd) (s : State) → to_come [] (command_turn line c s) ≡ nothing (command model line c s) }
{}

/// A turn of the topmost frame leaves what is still to come as it was, and lowers what is left to do.
#[tactic(auto, using(crate::proofs::TurnComes::turn_leaves, crate::proofs::TurnCosts::turn_lowers))]
pub fn a_turn_goes_on()
    ensures rest { (frames : List Frame) (f : Frame) (e : WaitEnd) (s : State) → to_come frames (turn f e s) ≡ rest (frames ++ f ∷ []) (outcome_of e s) }
    ensures work { (frames : List Frame) (f : Frame) (e : WaitEnd) (s : State) → left frames (turn f e s) < work (frames ++ f ∷ []) s }
{}

/// What the frames still do depends on nothing that was logged before it. So the log may be written out and
/// forgotten between any two turns: it stands before what is still to come, and what is left to do stays.
#[tactic(auto, using(crate::proofs::Behind::rest_behind, crate::proofs::Behind::rest_forgotten, crate::proofs::Behind::work_forgotten))]
pub fn no_frame_reads_the_log()
    ensures behind { (frames : List Frame) (log : List Event) (o : Outcome State Given) → rest frames (behind_in log o) ≡ behind_in log (rest frames o) }
    ensures forgotten { (frames : List Frame) (e : WaitEnd) (s : State)
        → rest frames (outcome_of e s) ≡ behind_in s.log (rest frames (outcome_of e (record s { log = [] }))) }
    ensures work { (frames : List Frame) (s : State) → work frames (record s { log = [] }) ≡ work frames s }
{}

/// The topmost frame ends first.
#[tactic(auto, using(crate::proofs::Resting::rest_push))]
pub fn the_topmost_ends_first()
    ensures { (frames : List Frame) (f : Frame) (o : Outcome State Given) → rest (frames ++ f ∷ []) o ≡ rest frames (after f o) }
{}

/// A class's behaviour is in one place: in the topmost frame of its bodies, or at home where there is none. It
/// stays so as bodies of the class begin, above one of them or first of all, as they end, and as they go on and
/// change what the class remembers. What a frame holds changes nothing of what it stands for; frames of no body
/// come and go.
pub fn a_behaviour_is_in_one_place()
    ensures at_home { (bs : List Behaviour) → Stands (map Some bs) [] bs }
    ensures all_home { (homes : Homes) (bs : List Behaviour) → Stands homes [] bs → homes ≡ map Some bs }
    ensures top { (homes : Homes) (frames : List Held) (bs : List Behaviour) (k : ℕ) (p : Place) (h : Option Behaviour)
        → Stands homes (frames ++ Body k p h ∷ []) bs → h ≡ slice_get bs k }
    ensures fetched { (homes : Homes) (frames : List Held) (bs : List Behaviour) (k i : ℕ) (p : Place) (f : Held) → IsTopmost k frames i f
        → Stands homes frames bs → Stands homes (slice_set frames i (holding None f) ++ Body k p (held_in f) ∷ []) bs }
    ensures handed_back { (homes : Homes) (frames : List Held) (bs : List Behaviour) (k i : ℕ) (p : Place) (f : Held) (h : Option Behaviour)
        → IsTopmost k frames i f → Stands homes (frames ++ Body k p h ∷ []) bs → Stands homes (slice_set frames i (holding h f)) bs }
    ensures from_home { (homes : Homes) (frames : List Held) (bs : List Behaviour) (k : ℕ) (p : Place) → NoneOf k frames
        → Stands homes frames bs → Stands (slice_set homes k None) (frames ++ Body k p (home_of homes k) ∷ []) bs }
    ensures to_home { (homes : Homes) (frames : List Held) (bs : List Behaviour) (k : ℕ) (p : Place) (b : Behaviour) → NoneOf k frames
        → Stands homes (frames ++ Body k p (Some b) ∷ []) bs → Stands (slice_set homes k (Some b)) frames bs }
    ensures changed { (homes : Homes) (frames : List Held) (bs : List Behaviour) (k : ℕ) (p q : Place) (b c : Behaviour)
        → Stands homes (frames ++ Body k p (Some b) ∷ []) bs → Stands homes (frames ++ Body k q (Some c) ∷ []) (slice_set bs k c) }
    ensures seen { (bodies : List (List (CallName × Act))) (h : Option Behaviour) (f : Held) → seen bodies (holding h f) ≡ seen bodies f }
    ensures waits { (homes : Homes) (frames : List Held) (bs : List Behaviour) (f : Frame)
        → Stands homes frames bs → Stands homes (frames ++ Wait f ∷ []) bs }
    ensures waited { (homes : Homes) (frames : List Held) (bs : List Behaviour) (f : Frame)
        → Stands homes (frames ++ Wait f ∷ []) bs → Stands homes frames bs }
{}

/// What classes do and remember may be kept beside a state that has none of it. A frame that was given something
/// reads it only to drain a queue or to go on with a body; one that is handed a fault, only where a body caught
/// the fault; and at the end of a session none does. All other turns do the same over the bare state, and leave
/// as many classes as there were.
pub fn what_waits_reads_no_behaviour()
    ensures went { (f : Frame) (given : Given) (bs : List Behaviour) (s : State) → GoesBlind f
        → turn f (Went given) (whole bs s) ≡ whole_turned bs (turn f (Went given) s) }
    ensures threw { (f : Frame) (x : Fault) (bs : List Behaviour) (s : State) → CatchesBlind f
        → turn f (Threw x) (whole bs s) ≡ whole_turned bs (turn f (Threw x) s) }
    ensures over { (f : Frame) (bs : List Behaviour) (s : State) → turn f Over (whole bs s) ≡ whole_turned bs (turn f Over s) }
    ensures went_classes { (f : Frame) (given : Given) (s : State) → GoesBlind f → length (turn f (Went given) s).state.classes ≡ length s.classes }
    ensures threw_classes { (f : Frame) (x : Fault) (s : State) → CatchesBlind f → length (turn f (Threw x) s).state.classes ≡ length s.classes }
    ensures over_classes { (f : Frame) (s : State) → length (turn f Over s).state.classes ≡ length s.classes }
{}
