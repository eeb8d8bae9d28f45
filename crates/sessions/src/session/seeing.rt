//! What a session sees of its desk, at a place among the readers.
ghost use Rattle.std.specs.Prelude.{◌≡◌, ◌+◌, length, IfOk, IfErr, IsOk, IsSome, OnOk};
ghost use mathlib.Core.List.{IsPrefix};
ghost use Rattle.published.specs.Showing.{IsUnseen};
ghost use Rattle.desk.specs.Readings.{IsNoPlace, IsViewAfter};
ghost use Rattle.sessions.specs.Told.{known_to, IsReached, IsUnmet, IsUnsighted};

use desk::{Glance, Handle, Naming, Place, Served, Shown};
use roadnet::Refusal;

/// Acquires a reader place if the session has none. It fails as `Handle::place` does.
fn take_place<S: Served>(
    place: &mut Option<Place<S::Naming>>,
    desk: &Handle<S>,
) -> Result<(), Refusal>
    ensures refused { IfErr result IsNoPlace }
    ensures causes { IfErr result (IsUnsighted (known_to place.new)) }
    // A place that the session has stays.
    ensures held { IsSome place.old → IsOk result }
    ensures found { OnOk result (IsSome place.new) }
    ensures begins { IsPrefix (known_to place.old) (known_to place.new) }
{
    match &*place {
        Some(_) => Ok(()),
        None => {
            *place = Some(desk.place()?);
            Ok(())
        }
    }
}

/// What is shown at this moment, seen from a reader place: the groups after which it is shown begin with everything that was seen and learned there. It
/// fails if no place or no view is available.
pub(crate) fn see<S: Served>(
    place: &mut Option<Place<S::Naming>>,
    desk: &Handle<S>,
) -> Result<Glance<S::Naming>, Refusal>
    ensures seen { IfOk result (λ glance. glance.known.groups ≡ known_to place.new) }
    ensures view { IfOk result (λ glance. IsViewAfter S.Naming.origin glance.known.groups glance.view) }
    ensures causes { IfErr result (IsUnsighted (known_to place.new)) }
    ensures begins { IsPrefix (known_to place.old) (known_to place.new) }
{
    take_place(place, desk)?;
    let Some(held) = place else {
        unreachable!();
    };
    let glance = held.look()?;
    let _ = glance.version();
    Ok(glance)
}

/// The version of the view that is shown now. It fails if the session cannot look at the view (11, 61).
fn version_by<N: Naming>(place: &mut Place<N>) -> Result<u64, Refusal>
    ensures version { IfOk result (λ version. version ≡ N.origin.version + length place.new.groups) }
    ensures causes { IfErr result IsUnseen }
    ensures begins { IsPrefix place.old.groups place.new.groups }
{
    Ok(place.look()?.version())
}

/// The same for a place that first takes in what was shown.
fn version_since<N: Naming>(place: &mut Place<N>, shown: &Shown) -> Result<u64, Refusal>
    requires { shown.now.origin ≡ N.origin }
    ensures version { IfOk result (λ version. version ≡ N.origin.version + length place.new.groups) }
    ensures causes { IfErr result IsUnseen }
    ensures begins { IsPrefix place.old.groups place.new.groups }
    ensures learned { IsPrefix shown.now.groups place.new.groups }
{
    place.learn(shown);
    version_by(place)
}

/// The version of a new glance.
pub(crate) fn version_now<S: Served>(
    place: &mut Option<Place<S::Naming>>,
    desk: &Handle<S>,
) -> Result<u64, Refusal>
    ensures version { IfOk result (λ version. version ≡ S.Naming.origin.version + length (known_to place.new)) }
    ensures causes { IfErr result (IsUnsighted (known_to place.new)) }
    ensures begins { IsPrefix (known_to place.old) (known_to place.new) }
{
    take_place(place, desk)?;
    let Some(held) = place else {
        unreachable!();
    };
    version_by(held)
}

/// The version of a new glance, at a place that first takes in what was shown.
pub(crate) fn learn_version<S: Served>(
    place: &mut Option<Place<S::Naming>>,
    desk: &Handle<S>,
    shown: &Shown,
) -> Result<u64, Refusal>
    requires { shown.now.origin ≡ S.Naming.origin }
    ensures version { IfOk result (λ version. version ≡ S.Naming.origin.version + length (known_to place.new)) }
    ensures causes { IfErr result (IsUnsighted (known_to place.new)) }
    ensures begins { IsPrefix (known_to place.old) (known_to place.new) }
    ensures learned { OnOk result (IsPrefix shown.now.groups (known_to place.new)) }
{
    take_place(place, desk)?;
    let Some(held) = place else {
        unreachable!();
    };
    version_since(held, shown)
}

/// Waits until this version or a later one is shown, for at most the desk's patience, and learns it. Returns the version of a new glance.
pub(crate) fn wait_until<S: Served>(
    place: &mut Option<Place<S::Naming>>,
    desk: &Handle<S>,
    number: u64,
) -> Result<u64, Refusal>
    ensures reached { IfOk result (IsReached S.Naming.origin number (known_to place.new)) }
    ensures causes { IfErr result (IsUnmet S.Naming.origin number (known_to place.new)) }
    ensures begins { IsPrefix (known_to place.old) (known_to place.new) }
{
    let shown = desk.wait_version(number)?;
    learn_version(place, desk, &shown)
}
