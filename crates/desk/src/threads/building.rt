// The builder: the thread that builds the views of what is durable, and shows them.
ghost use Rattle.std.specs.Prelude.{◌≡◌};

use crate::gates::Gate;
use crate::lock::shared::Shared;
use crate::lock::turns::BuilderTurn;
use crate::served::Served;
use crate::threads::attempts::{Attempt, Misses};
use crate::threads::earlier::Earlier;
use crate::threads::last::Unbuilt;
use crate::threads::plans::Plan;
use disk::Disk;
use office::{Built, Naming, Office, Work};
use std::sync::Wait;

/// Shows what was built. If that fails, gives its task up and hands what was built back.
fn show_or_give_up<N: Naming, D: Disk, R: Wait>(
    rt: &R,
    office: &mut Office<N, D>,
    version: u64,
    built: Built,
) -> Option<Built>
    requires { built.shown.origin ≡ N.origin }
{
    match office.show(rt, built) {
        Ok(_) => None,
        Err((_, built)) => {
            office.give_up(version);
            Some(built)
        }
    }
}

impl<S: Served> Shared<S>
where
    S::Gate: Sync,
    S::Runtime: Sync,
{
    /// Shows what was built, or gives its task up. What was not shown is dropped after the lock is released.
    fn show(&self, rt: &S::Runtime, version: u64, built: Built) -> Attempt
        requires { built.shown.origin ≡ S.Naming.origin }
    {
        let unshown = match &mut self.lock(rt).office {
            Some(office) => show_or_give_up(rt, office, version, built),
            None => return Attempt::Done,
        };
        self.published.notify_all();
        match unshown {
            Some(_) => Attempt::NoMemory,
            None => Attempt::Done,
        }
    }

    /// Builds the view of a work and shows it, or gives its task up. The view that was shown before is among the earlier ones then, once the lock is released.
    fn carry_out(&self, rt: &S::Runtime, plan: &Plan, work: Work, earlier: &mut Earlier) -> Attempt
        requires { work.origin ≡ S.Naming.origin }
    {
        let version = work.version();
        let unbuilt = match plan.build(rt, &self.gate, &self.last, &work) {
            Ok(view) => {
                let attempt = self.show(rt, version, work.built(view));
                earlier.keep(work.into_shown());
                earlier.let_go();
                return attempt;
            }
            Err(unbuilt) => unbuilt,
        };
        if let Some(office) = &mut self.lock(rt).office {
            office.give_up(version);
        }
        match unbuilt {
            Unbuilt::OutOfMemory => Attempt::NoMemory,
            Unbuilt::PassedOver => Attempt::Done,
        }
    }

    /// Takes a work, unless the gate delays it, and carries it out.
    fn build(&self, rt: &S::Runtime, plan: &Plan, durable: u64, earlier: &mut Earlier) -> Attempt {
        if !self.gate.before_task(durable) {
            return Attempt::NoMemory;
        }
        let taken = match &mut self.lock(rt).office {
            Some(office) => office.take_work(),
            None => return Attempt::Done,
        };
        match taken {
            Ok(Some(work)) => self.carry_out(rt, plan, work, earlier),
            Ok(None) => Attempt::Done,
            Err(_) => Attempt::NoMemory,
        }
    }
}

/// What the builder does until it ends.
pub(crate) fn build_views<S: Served>(rt: &S::Runtime, shared: &Shared<S>, plan: &Plan)
where
    S::Gate: Sync,
    S::Runtime: Sync,
{
    let mut misses = Misses::none();
    let mut earlier = Earlier::none(plan.alloc);
    for _ in rt.forever() {
        let turn = shared.next_builder_turn(rt);
        earlier.let_go();
        let attempt = match turn {
            BuilderTurn::End => break,
            BuilderTurn::Rest => Attempt::Done,
            BuilderTurn::Build { durable } => shared.build(rt, plan, durable, &mut earlier),
        };
        if !misses.goes_on(attempt) {
            shared.gate.builder_gave_up();
            break;
        }
        shared.rest_behind(rt, misses, attempt);
    }
    shared.end_builder(rt);
}
