// The rule of a history's book, and what its steps show.
use crate::entries::Link;
use logbook::{Gain, Opening, Pen, Plain, Play, Rule};
use std::snapshot::Snapshot;

/// The rule of the book: whoever writes an entry gives up its pen.
pub struct Law;

impl Rule<Link, u64> for Law {
    ghost use Rattle.std.specs.Prelude.{[]};
    ghost use base.Fml.{ftrue};
    ghost use Rattle.history.specs.Rules.{IsLogKept};

    ghost holds = { λ cells log. IsLogKept cells log };

    ghost first = { [] };

    ghost hinted = { λ n log. Unit {0} };

    ghost shows = { λ log. [] };

    ghost keeps = { λ names log. ftrue };

    ghost moves = { λ ask before after answer. Unit {0} };
}

/// Callers trade nothing.
pub struct Nothing;

impl Gain<Link, u64> for Nothing {
    ghost use base.Fml.{ftrue};

    ghost after = { λ names about answer. ftrue };
}

/// A step that writes an entry.
pub struct Writes;

impl Play<Link, u64> for Writes {
    ghost use Rattle.history.specs.Rules.{WritesBehind};

    ghost then = { λ step before found after. WritesBehind before.0 step.ask after.0 };
}

/// What a step asks for: the entry.
impl Plain<Link, Link, u64> for Writes {
    ghost use Rattle.std.specs.Prelude.{None};

    ghost ask = { λ link. link };

    ghost state = { λ link. None };
}

/// A step that makes a pen.
pub struct Makes;

impl Play<Link, u64> for Makes {
    ghost use Rattle.std.specs.Prelude.{◌≡◌};
    ghost use Rattle.logbook.specs.Pages.{may_make};

    ghost then = { λ step before found after. after.1.0.right ≡ may_make };
}

/// A book begins empty.
pub struct Begins;

impl Opening<(), Link> for Begins {
    ghost use Rattle.std.specs.Prelude.{[]};

    ghost log = { λ count about. [] };
}

/// The rule of a name, which never changes.
pub struct Told;

impl Rule<Snapshot<Pen>, u64> for Told {
    ghost use Rattle.std.specs.Prelude.{[]};
    ghost use base.Fml.{ftrue};

    ghost holds = { λ cells log. Unit {0} };

    ghost first = { [] };

    ghost hinted = { λ n log. Unit {0} };

    ghost shows = { λ log. [] };

    ghost keeps = { λ names log. ftrue };

    ghost moves = { λ ask before after answer. Unit {0} };
}

/// A name is one pen.
pub struct Names;

impl Opening<Snapshot<Pen>, Snapshot<Pen>> for Names {
    ghost use Rattle.std.specs.Prelude.{[], ◌∷◌};

    ghost log = { λ count pen. pen ∷ [] };
}
