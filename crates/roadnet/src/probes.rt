// What commands are judged by, read from a network or from its outline, and what earlier commands change in it.

ghost use Rattle.std.specs.Prelude.{◌≡◌, ◌<◌, ◌+◌, ◌&&◌, None, length};
ghost use Rattle.roadnet.specs.Net.{Net, IsNetwork};
ghost use Rattle.roadnet.specs.Step.{is_node, is_landmark, refusal_of, changed, first_refusal};
ghost use Rattle.roadnet.specs.Batches.{opened_at, changed_by, changed_by_all, first_refusal_of_all};
ghost use Rattle.roadnet.specs.Judging.{IsVerdict};
ghost use Rattle.roadnet.specs.Outlines.{Outlined, OfEachNetwork};
ghost use Rattle.roadnet.specs.Probes.{Sees};

use crate::commands::Command;
use crate::groups::Group;
use crate::judging::{judge_close, judge_lay, judge_mark, judge_reopen, judge_set, judge_unmark};
use crate::refusals::Refusal;

/// The part of a network by which commands are judged. Each answer holds for every network of the outline.
pub trait Probed {
    ghost outline: { Self → Outlined };

    /// Whether there is a node of this number.
    fn knows_node(&self, x: u64) -> bool
        ensures { OfEachNetwork (outline self.now) (λ net. is_node net x ≡ result) };

    /// Whether arc `k` is open, if there is such an arc.
    fn flag_of(&self, k: u64) -> Option<bool>
        ensures { OfEachNetwork (outline self.now) (λ net. opened_at net k ≡ result) };

    /// Whether node `x` is a landmark.
    fn is_marked(&self, x: u64) -> bool
        ensures { OfEachNetwork (outline self.now) (λ net. is_landmark net x ≡ result) };

    /// How many arcs there are.
    fn count_arcs(&self) -> u64
        ensures { OfEachNetwork (outline self.now) (λ net. length net.arcs ≡ result) };

    /// How many landmarks there are.
    fn count_landmarks(&self) -> u64
        ensures { OfEachNetwork (outline self.now) (λ net. length net.landmarks ≡ result) };

    /// How many arcs there is room for.
    fn most_arcs(&self) -> u64
        ensures { OfEachNetwork (outline self.now) (λ net. net.room ≡ result) };
}

/// What one arc and one node of a network show.
#[derive(Clone, Copy, Debug)]
struct ProbedPlace {
    /// Whether the arc is open, if there is one.
    opened: Option<bool>,
    /// How many arcs there are.
    arcs: u64,
    /// Whether the node is a landmark.
    marked: bool,
    /// How many landmarks there are.
    landmarks: u64,
}

/// One more, if that is a number of 64 bits.
fn one_more(n: u64) -> u64
    ensures { n < 18446744073709551615 → result ≡ n + 1 }
{
    if n < u64::MAX { n + 1 } else { n }
}

/// What arc `k` and node `x` show after an admitted command.
fn seen_after_one(command: &Command, k: u64, x: u64, seen: ProbedPlace) -> ProbedPlace
    ensures { (net : Net) → IsNetwork net → refusal_of net command.now ≡ None → Sees net k x seen → Sees (changed net command.now) k x result }
{
    let ProbedPlace {
        opened,
        arcs,
        marked,
        landmarks,
    } = seen;
    match *command {
        Command::Set { arc: _, length: _ } => seen,
        Command::Close { arc } => {
            if arc != k {
                return seen;
            }
            let opened = Some(false);
            ProbedPlace {
                opened,
                arcs,
                marked,
                landmarks,
            }
        }
        Command::Reopen { arc } => {
            if arc != k {
                return seen;
            }
            let opened = Some(true);
            ProbedPlace {
                opened,
                arcs,
                marked,
                landmarks,
            }
        }
        Command::Mark { node } => {
            let landmarks = one_more(landmarks);
            if node != x {
                return ProbedPlace {
                    opened,
                    arcs,
                    marked,
                    landmarks,
                };
            }
            let marked = true;
            ProbedPlace {
                opened,
                arcs,
                marked,
                landmarks,
            }
        }
        Command::Unmark { node } => {
            let landmarks = landmarks.saturating_sub(1);
            if node != x {
                return ProbedPlace {
                    opened,
                    arcs,
                    marked,
                    landmarks,
                };
            }
            let marked = false;
            ProbedPlace {
                opened,
                arcs,
                marked,
                landmarks,
            }
        }
        Command::Lay {
            tail: _,
            head: _,
            length: _,
        } => {
            let arcs = one_more(arcs);
            if arcs != k {
                return ProbedPlace {
                    opened,
                    arcs,
                    marked,
                    landmarks,
                };
            }
            let opened = Some(true);
            ProbedPlace {
                opened,
                arcs,
                marked,
                landmarks,
            }
        }
    }
}

/// What arc `k` and node `x` show after commands that are each admitted in turn.
fn seen_after(commands: &[Command], k: u64, x: u64, seen: ProbedPlace) -> ProbedPlace
    ensures { (net : Net) → IsNetwork net → first_refusal net commands.now ≡ None → Sees net k x seen → Sees (changed_by net commands.now) k x result }
{
    let mut last = seen;
    for command in commands {
        last = seen_after_one(command, k, x, last);
    }
    last
}

/// What arc `k` and node `x` show after groups whose commands are each admitted in turn.
fn seen_after_all(groups: &[Group], k: u64, x: u64, seen: ProbedPlace) -> ProbedPlace
    ensures { (net : Net) → IsNetwork net → first_refusal_of_all net groups.now ≡ None → Sees net k x seen → Sees (changed_by_all net groups.now) k x result }
{
    let mut last = seen;
    for group in groups {
        last = seen_after(group.commands(), k, x, last);
    }
    last
}

/// What arc `k` and node `x` show after the groups and the commands.
fn see<S: Probed>(site: &S, groups: &[Group], commands: &[Command], k: u64, x: u64) -> ProbedPlace
    requires groups { OfEachNetwork (S.outline site.now) (λ net. first_refusal_of_all net groups.now ≡ None) }
    requires commands { OfEachNetwork (S.outline site.now) (λ net. first_refusal (changed_by_all net groups.now) commands.now ≡ None) }
    ensures { OfEachNetwork (S.outline site.now) (λ net. Sees (changed_by (changed_by_all net groups.now) commands.now) k x result) }
{
    let seen = ProbedPlace {
        opened: site.flag_of(k),
        arcs: site.count_arcs(),
        marked: site.is_marked(x),
        landmarks: site.count_landmarks(),
    };
    let seen = seen_after_all(groups, k, x, seen);
    seen_after(commands, k, x, seen)
}

/// Whether there are nodes of both numbers.
fn knows_both<S: Probed>(site: &S, x: u64, y: u64) -> bool
    ensures { OfEachNetwork (S.outline site.now) (λ net. (is_node net x && is_node net y) ≡ result) }
{
    if !site.knows_node(x) {
        return false;
    }
    site.knows_node(y)
}

/// Whether the command may be carried out after the earlier groups and commands, or otherwise the lowest refusal that applies.
fn admit_after<S: Probed>(
    site: &S,
    groups: &[Group],
    earlier: &[Command],
    command: &Command,
) -> Result<(), Refusal>
    requires groups { OfEachNetwork (S.outline site.now) (λ net. first_refusal_of_all net groups.now ≡ None) }
    requires earlier { OfEachNetwork (S.outline site.now) (λ net. first_refusal (changed_by_all net groups.now) earlier.now ≡ None) }
    ensures { OfEachNetwork (S.outline site.now) (λ net. IsVerdict (refusal_of (changed_by (changed_by_all net groups.now) earlier.now) command.now) result) }
{
    match *command {
        Command::Set { arc, length } => {
            let seen = see(site, groups, earlier, arc, 0);
            judge_set(seen.opened, length)
        }
        Command::Close { arc } => {
            let seen = see(site, groups, earlier, arc, 0);
            judge_close(seen.opened)
        }
        Command::Reopen { arc } => {
            let seen = see(site, groups, earlier, arc, 0);
            judge_reopen(seen.opened)
        }
        Command::Mark { node } => {
            let seen = see(site, groups, earlier, 0, node);
            judge_mark(site.knows_node(node), seen.marked, seen.landmarks)
        }
        Command::Unmark { node } => {
            let seen = see(site, groups, earlier, 0, node);
            judge_unmark(site.knows_node(node), seen.marked)
        }
        Command::Lay { tail, head, length } => {
            let seen = see(site, groups, earlier, 0, 0);
            let there = knows_both(site, tail, head);
            judge_lay(there, seen.arcs, site.most_arcs(), length)
        }
    }
}

/// Whether the commands may be carried out one after another, after the earlier groups. Otherwise the refusal of the first one that is not admitted after
/// those before it. It takes no memory.
pub fn admit_one<S: Probed>(site: &S, groups: &[Group], commands: &[Command]) -> Result<(), Refusal>
    requires groups { OfEachNetwork (S.outline site.now) (λ net. first_refusal_of_all net groups.now ≡ None) }
    ensures { OfEachNetwork (S.outline site.now) (λ net. IsVerdict (first_refusal (changed_by_all net groups.now) commands.now) result) }
{
    for (i, command) in commands.iter().enumerate() {
        if let Err(refusal) = admit_after(site, groups, &commands[..i], command) {
            return Err(refusal);
        }
    }
    Ok(())
}

/// Whether the groups may be carried out one after another. Otherwise the refusal of the first command that is not admitted after those before it. It takes
/// no memory.
pub fn admit_all<S: Probed>(site: &S, groups: &[Group]) -> Result<(), Refusal>
    ensures { OfEachNetwork (S.outline site.now) (λ net. IsVerdict (first_refusal_of_all net groups.now) result) }
{
    for (i, group) in groups.iter().enumerate() {
        if let Err(refusal) = admit_one(site, &groups[..i], group.commands()) {
            return Err(refusal);
        }
    }
    Ok(())
}
