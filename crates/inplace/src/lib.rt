// The calls on a device that the host lends: an event alters it where it stands, and its lines are read without one.
#![tactic(auto)]

ghost use Rattle.std.specs.Prelude.{◌≡◌, true};
ghost use Rattle.rules.specs.Interrupts.{lines_of};
ghost use Rattle.rules.specs.Sound.{sound_of};
ghost use Rattle.rules.specs.Events.{event_of};

use rules::{Answer, Device, Event, Lines};

// Beside the call that hands a record back there is one that alters the host's device where it stands, with the same answer.
// Stays: its twin alters the other device; one for both would be a trait for three lines.
pub fn event_in_place(d: &mut Device, e: Event) -> Answer
    ensures { (result ≡ (event_of d.old e).answer) × (d.new ≡ (event_of d.old e).device) }
{
    let o = event::event(*d, e);
    *d = o.device;
    o.answer
}

// INT, IEO and the place of the highest requester, as they are stored: in a sound record those that the definitions work out.
pub fn lines(d: &Device) -> Lines
    ensures { (result ≡ d.now.lines) × (sound_of d.now ≡ true → result ≡ lines_of d.now) }
{
    d.lines
}
