//! How deep the expression that is being read is so far.

ghost use Rattle.std.specs.Prelude.{◌≡◌, ◌∷◌, ◌<◌, ◌≤◌, List, nat_le, reverse};
ghost use Rattle.esql_expr.specs.declared.machine.Frame.{Frame as Around};
ghost use Rattle.esql_expr.specs.Machine.{up, depth_at, need};

use crate::machine::{Frame, Reader, Top};

fn depth_at(top: &Top) -> u64
    ensures depth { result ≡ depth_at top.now }
    ensures fits { result ≤ 4294967296 }
{
    match top {
        Top::Have(part) => part.depth as u64,
        Top::Denied(left) | Top::Among { left, .. } | Top::Matching { left, .. } => {
            1 + left.depth as u64
        }
        Top::Testing(arg) | Top::TestingNot(arg) | Top::Casting(arg) => 1 + arg.depth as u64,
        Top::Want
        | Top::Named(_)
        | Top::Called(_)
        | Top::Starred(_)
        | Top::Listing { .. }
        | Top::Negating { .. }
        | Top::Listed { .. } => 1,
    }
}

// The least depth of what a frame makes of an expression of a depth.
fn raised(frame: &Frame, depth: u64) -> u64
    requires { depth < 4294967296 }
    ensures depth { (above : List Around) → up (frame.now ∷ above) depth ≡ up above result }
    ensures fits { result ≤ 4294967296 }
{
    match frame {
        Frame::Group { .. } | Frame::Minus { .. } | Frame::Not { .. } => 1 + depth,
        Frame::Binary { left, .. } => 1 + depth.max(left.depth as u64),
        Frame::Call { depth: args, .. } => 1 + depth.max(*args as u64),
        Frame::Within {
            left,
            depth: items,
            ..
        } => { 1 + depth.max(*items as u64).max(left.depth as u64) }
    }
}

// Whether an expression of a depth stays within a limit, by what it stands in, the innermost last.
#[tactic(auto, using(crate::proofs::Depths::up_rises, crate::proofs::Depths::up_innermost))]
fn is_within(frames: &[Frame], depth: u64, limit: u32) -> bool
    requires { depth ≤ 4294967296 }
    ensures { result ≡ nat_le (up (reverse frames.now) depth) limit }
{
    let limit = limit as u64;
    let mut rest = frames;
    let mut now = depth;
    while let Some((frame, above)) = rest.split_last() {
        if limit < now {
            return false;
        }
        now = raised(frame, now);
        rest = above;
    }
    now <= limit
}

impl Reader {
    /// Whether the expression is not deeper than a limit, as far as it was read; however it goes on, it is at least
    /// this deep.
    pub fn is_within(&self, limit: u32) -> bool
        ensures { result ≡ nat_le (need self.now) limit }
    {
        is_within(self.frames.as_slice(), depth_at(&self.top), limit)
    }
}
