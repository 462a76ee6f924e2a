//! The epochs of recordings.
ghost use Rattle.std.specs.Prelude.{◌≡◌, ◌<◌, List, false, true, IsOk, OnOk, OnErr, length};
ghost use Rattle.spec_protocol.specs.declared.event.Event.{Event as EventOf};
ghost use Rattle.spec_protocol.specs.machine.Epochs.{begun_at, epochs_begun};
ghost use Rattle.spec_protocol.specs.machine.Machine.{Setup};
ghost use Rattle.spec_protocol.specs.machine.World.{sphere_at};
ghost use Rattle.spec_protocol.specs.promises.Alike.{AreAlike};
ghost use Rattle.spec_protocol.specs.promises.Kept.{NoneIsDue};
ghost use Rattle.spec_sphere.specs.promises.Kept.{has_due};
ghost use Rattle.dl_machine.specs.Begun.{HasBegunSome, IsOneDue};
ghost use Rattle.dl_machine.specs.Events.{wants_memory as wants};
ghost use Rattle.dl_machine.specs.Ready.{IsReady};
ghost use Rattle.dl_machine.specs.Runs.{HasRun, IsRun};

use crate::state::State;
use dl_entry::OutOfMemory;
use dl_sig::Sig;
use spec_protocol::Event;

impl<G: Sig> State<G> {
    // Before an ask, an interrupt or a DMA, the epochs begin that are due.
    pub(crate) fn prepare(&mut self, event: Event) -> Result<(), OutOfMemory>
        requires led { HasRun self.old }
        ensures begun { OnOk result (wants event ≡ true → NoneIsDue self.new) }
        ensures all { OnOk result (wants event ≡ true → self.new ≡ epochs_begun self.old) }
        ensures alike { AreAlike self.new self.old }
        ensures run { (s : Setup) (es : List EventOf) → IsRun s es self.old → IsRun s es self.new }
        ensures same { NoneIsDue self.old → self.new ≡ self.old }
        ensures still { wants event ≡ false → self.new ≡ self.old }
        ensures partly { OnErr result (HasBegunSome self.old self.new) }
        ensures wanted { OnErr result (IsOneDue self.new) }
        ensures plenty { wants event ≡ false → IsOk result }
        ensures needless { NoneIsDue self.old → IsOk result }
    {
        if !wants_memory(event) {
            return Ok(());
        }
        self.begin_epochs()
    }

    // An epoch begins in each sphere in which one is due. If memory runs out, it may have begun in some of them. Then as before
    // the world shows the same events.
    pub(crate) fn begin_epochs(&mut self) -> Result<(), OutOfMemory>
        requires led { HasRun self.old }
        ensures begun { OnOk result (NoneIsDue self.new) }
        ensures all { OnOk result (self.new ≡ epochs_begun self.old) }
        ensures alike { AreAlike self.new self.old }
        ensures run { (s : Setup) (es : List EventOf) → IsRun s es self.old → IsRun s es self.new }
        ensures same { NoneIsDue self.old → self.new ≡ self.old }
        ensures partly { OnErr result (HasBegunSome self.old self.new) }
        ensures wanted { OnErr result (IsOneDue self.new) }
        ensures needless { NoneIsDue self.old → IsOk result }
    {
        for i in 0..self.spheres.len() {
            self.begin_epoch(i)?;
        }
        Ok(())
    }

    // An epoch begins in the i-th sphere, if one is due.
    fn begin_epoch(&mut self, i: u8) -> Result<(), OutOfMemory>
        requires sphere { i < length self.old.spheres }
        requires ready { IsReady self.old }
        ensures ok { OnOk result (self.new ≡ begun_at i self.old) }
        ensures err { OnErr result (self.new ≡ self.old) }
        ensures wanted { OnErr result (has_due (sphere_at self.old i) ≡ true) }
        ensures needless { has_due (sphere_at self.old i) ≡ false → IsOk result }
    {
        if !self.spheres.get(i).due() {
            return Ok(());
        }
        self.spheres.begin_epoch(i, &self.flights)
    }
}

// Whether an event commits or interrupts, and so may want memory.
fn wants_memory(event: Event) -> bool
    ensures { result ≡ wants event }
{
    matches!(event, Event::Ask(_) | Event::Raise(..) | Event::Dma(_))
}
