// A behaviour moves: from its class's topmost frame, or from home where there is none, to a new frame, and back.
ghost use Rattle.std.specs.Prelude.{◌≡◌, ◌<◌, None, true, is_some, length, vec_len, MatchOption};
ghost use Rattle.ce_frames.specs.Places.{home_of};
ghost use Rattle.frame_stack.specs.Moves.{frames_filled, frames_left, holding_at, homes_filled, homes_left, taken};

use crate::frame::Frame;
use behaviours::{Behaviour, Homes};
use ce_base::ClassNo;

/// The behaviour of a class goes to the frame at an index: from the frame of the class below it, or from home.
pub(crate) fn move_up(
    frames: &mut Vec<Frame>,
    homes: &mut Homes,
    class: ClassNo,
    below: Option<usize>,
    index: usize,
)
    requires index { index < vec_len frames.old }
    requires below { MatchOption below (is_some (home_of homes.old class) ≡ true) (λ i. i < vec_len frames.old) }
    ensures homes { homes.new ≡ homes_left below class homes.old }
    ensures frames { frames.new.items ≡ holding_at index (taken below class homes.old frames.old.items) (frames_left below frames.old.items) }
{
    let held = take(frames, homes, class, below);
    put(frames, index, held);
}

fn take(
    frames: &mut Vec<Frame>,
    homes: &mut Homes,
    class: ClassNo,
    below: Option<usize>,
) -> Option<Behaviour>
    requires { MatchOption below (is_some (home_of homes.old class) ≡ true) (λ i. i < vec_len frames.old) }
    ensures held { result ≡ taken below class homes.old frames.old.items }
    ensures homes { homes.new ≡ homes_left below class homes.old }
    ensures frames { frames.new.items ≡ frames_left below frames.old.items }
    ensures len { vec_len frames.new ≡ vec_len frames.old }
{
    match below {
        None => Some(homes.take(class)),
        Some(i) => {
            let f = &mut frames[i];
            f.take()
        }
    }
}

fn put(frames: &mut Vec<Frame>, i: usize, held: Option<Behaviour>)
    requires { i < vec_len frames.old }
    ensures { frames.new.items ≡ holding_at i held frames.old.items }
{
    let f = &mut frames[i];
    f.put(held);
}

/// The behaviour of a body that has ended goes to the frame of the class below it, or home.
pub(crate) fn move_down(
    frames: &mut Vec<Frame>,
    homes: &mut Homes,
    class: ClassNo,
    below: Option<usize>,
    b: Behaviour,
)
    requires { MatchOption below ((class < length homes.old) × (home_of homes.old class ≡ None)) (λ i. i < vec_len frames.old) }
    ensures homes { homes.new ≡ homes_filled below class b homes.old }
    ensures frames { frames.new.items ≡ frames_filled below b frames.old.items }
{
    match below {
        None => homes.put_back(class, b),
        Some(i) => put(frames, i, Some(b)),
    }
}
