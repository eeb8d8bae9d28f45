// What lies under the lock of a desk: the office, until it is taken out where the desk is closed, and how far the desk has come to its end. What is
// called then is refused (61), and nobody waits.
ghost use Rattle.std.specs.Prelude.{◌≡◌, None, Some, false, true, IfOk, IfErr};
ghost use Rattle.roadnet.specs.declared.refusals.Refusal.TheVariants.{Closed as closed};

use roadnet::Refusal;

/// The office, unless it was taken out, and how far the desk has come to its end. Where the office was taken out all has ended.
#[derive(Drop)]
pub(crate) struct Held<O> {
    pub(crate) office: Option<O>,
    /// No more groups are accepted.
    pub(crate) halted: bool,
    pub(crate) flusher_ended: bool,
    pub(crate) builder_ended: bool,
}

impl<O> Held<O> {
    /// The office is there, and nothing has ended.
    pub(crate) fn new(office: O) -> Held<O>
        ensures { result.office ≡ Some office }
    {
        Held {
            office: Some(office),
            halted: false,
            flusher_ended: false,
            builder_ended: false,
        }
    }

    /// The office. Refused (61) is one that was taken out.
    pub(crate) fn there(&self) -> Result<&O, Refusal>
        ensures there { IfOk result (λ office. self.now.office ≡ Some office.now) }
        ensures taken { IfErr result (λ refusal. (refusal ≡ closed) × (self.now.office ≡ None)) }
    {
        match &self.office {
            Some(office) => Ok(office),
            None => Err(Refusal::Closed),
        }
    }

    /// Takes the office out; nothing where that was done before. All has ended then.
    pub(crate) fn take(&mut self) -> Option<O>
        ensures office { result ≡ self.old.office }
        ensures taken { self.new.office ≡ None }
        ensures ended { (self.new.halted ≡ true) × (self.new.flusher_ended ≡ true) × (self.new.builder_ended ≡ true) }
    {
        self.halted = true;
        self.flusher_ended = true;
        self.builder_ended = true;
        self.office.take()
    }
}
