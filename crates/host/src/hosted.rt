// The devices of the calls, and what a call does with any of them.
ghost use Rattle.std.specs.Prelude.{◌≡◌, ℕ, List, length};
ghost use Rattle.basics.specs.Buffer.{laid_of};
ghost use Rattle.rules.specs.declared.Event.{Event};
ghost use Rattle.rules.specs.declared.Lines.{Lines};
ghost use Rattle.rules.specs.declared.Outcome.{Outcome};
ghost use Rattle.rules.specs.Record.{fresh_of};
ghost use Rattle.rules.specs.Events.{event_of};
ghost use Rattle.rules.specs.Refusals.{code_in};
ghost use Rattle.z8536.specs.Z8536.{fresh_z8536, event_z8536};
ghost use Rattle.ctc_rules.specs.Record.{fresh_ctc};
ghost use Rattle.ctc_rules.specs.Interrupts.{lines_ctc};
ghost use Rattle.ctc_rules.specs.Events.{event_ctc};
ghost use Rattle.bodies.specs.Written.{image_of};
ghost use Rattle.image.specs.declared.Restored.{Restored};
ghost use Rattle.image.specs.Image.{save_code, saved_of, restored_of};
ghost use Rattle.image.specs.Pointed.{image_z8536, save_code_z8536, saved_z8536, restored_z8536};
ghost use Rattle.ctc_image.specs.Layout.{image_ctc};
ghost use Rattle.ctc_image.specs.Image.{save_code_ctc, saved_ctc, restored_ctc};
ghost use Rattle.host.specs.Bytes.{reply_bytes, ctc_bytes, answer_len, ctc_len};
ghost use Rattle.host.specs.Calls.{called, hosted, hosted_lines, opened_by, fresh_code, fresh_state};
ghost use Rattle.host.specs.Laws.{answer_long, ctc_long, z8036_long, z8036_fills, z8536_long, z8536_fills, ctc_image_long, ctc_fills};

use crate::answers;
use ctc_rules::{Ctc, CtcAnswer};
use image::Restored;
use rules::{Answer, Device, Event, Lines, Outcome, Refusal};
use z8536::Z8536;

// A device whose state is its image. The ghost members are the definitions that its calls are made of.
pub(crate) trait Hosted: Copy {
    type Answer: Copy;

    // How long a state is, and an answer.
    const STATE: usize;

    const ANSWER: usize;

    ghost STATE: { ℕ };

    ghost ANSWER: { ℕ };

    ghost fresh_device: { Self };

    ghost fresh_image: { List ℕ };

    ghost restored: { List ℕ → Restored Self };

    ghost save_code: { Self → ℕ → ℕ };

    ghost saved: { Self → List ℕ → List ℕ };

    ghost happened: { Self → Event → Outcome Self Self.Answer };

    ghost lines_of: { Self → Lines };

    ghost code_of: { Self.Answer → ℕ };

    ghost bytes_of: { Self.Answer → List ℕ };

    fn fresh() -> Self
        ensures { result ≡ fresh_device };

    fn restore(state: &[u8]) -> Restored<Self>
        ensures { result ≡ restored state.now };

    fn save(self, state: &mut [u8]) -> Result<(), Refusal>
        ensures { (code_in result ≡ save_code self (length state.old)) × (state.new ≡ saved self state.old) };

    fn event(self, e: Event) -> Outcome<Self, Self::Answer>
        ensures { result ≡ happened self e };

    fn lines(self) -> Lines
        ensures { result ≡ lines_of self };

    fn code(a: Self::Answer) -> u8
        ensures { result ≡ code_of a };

    // The bytes of an answer over the first ones of a buffer.
    fn lay(a: Self::Answer, buf: &mut [u8])
        ensures { buf.new ≡ laid_of buf.old 0 (bytes_of a) };

    ghost long: { (a : Self.Answer) → length (bytes_of a) ≡ ANSWER };

    ghost fills: { (s : List ℕ) → length s ≡ STATE
        → (save_code fresh_device (length s) ≡ 0) × (saved fresh_device s ≡ fresh_image) };

    ghost image_long: { length fresh_image ≡ STATE };
}

impl Hosted for Device {
    type Answer = Answer;

    const STATE: usize = Device::IMAGE;

    const ANSWER: usize = answers::ANSWER;

    ghost STATE = { 96 };

    ghost ANSWER = { answer_len };

    ghost fresh_device = { fresh_of };

    ghost fresh_image = { image_of fresh_of };

    ghost restored = { restored_of };

    ghost save_code = { save_code };

    ghost saved = { saved_of };

    ghost happened = { event_of };

    ghost lines_of = { λ d. d.lines };

    ghost code_of = { λ a. a.code };

    ghost bytes_of = { reply_bytes };

    ghost long = { answer_long };

    ghost fills = { z8036_fills };

    ghost image_long = { z8036_long };

    fn fresh() -> Device {
        Device::fresh()
    }

    fn restore(state: &[u8]) -> Restored<Device> {
        image::restore(state)
    }

    fn save(self, state: &mut [u8]) -> Result<(), Refusal> {
        image::save(self, state)
    }

    fn event(self, e: Event) -> Outcome<Device> {
        event::event(self, e)
    }

    fn lines(self) -> Lines {
        self.lines
    }

    fn code(a: Answer) -> u8 {
        a.code
    }

    fn lay(a: Answer, buf: &mut [u8]) {
        basics::lay(buf, 0, &answers::answer(a));
    }
}

impl Hosted for Z8536 {
    type Answer = Answer;

    const STATE: usize = Z8536::IMAGE;

    const ANSWER: usize = answers::ANSWER;

    ghost STATE = { 102 };

    ghost ANSWER = { answer_len };

    ghost fresh_device = { fresh_z8536 };

    ghost fresh_image = { image_z8536 fresh_z8536 };

    ghost restored = { restored_z8536 };

    ghost save_code = { save_code_z8536 };

    ghost saved = { saved_z8536 };

    ghost happened = { event_z8536 };

    ghost lines_of = { λ z. z.core.lines };

    ghost code_of = { λ a. a.code };

    ghost bytes_of = { reply_bytes };

    ghost long = { answer_long };

    ghost fills = { z8536_fills };

    ghost image_long = { z8536_long };

    fn fresh() -> Z8536 {
        Z8536::fresh()
    }

    fn restore(state: &[u8]) -> Restored<Z8536> {
        image::restore_z8536(state)
    }

    fn save(self, state: &mut [u8]) -> Result<(), Refusal> {
        image::save_z8536(self, state)
    }

    fn event(self, e: Event) -> Outcome<Z8536> {
        event_z8536::event(self, e)
    }

    fn lines(self) -> Lines {
        self.core.lines
    }

    fn code(a: Answer) -> u8 {
        a.code
    }

    fn lay(a: Answer, buf: &mut [u8]) {
        basics::lay(buf, 0, &answers::answer(a));
    }
}

impl Hosted for Ctc {
    type Answer = CtcAnswer;

    const STATE: usize = Ctc::IMAGE;

    const ANSWER: usize = answers::CTC;

    ghost STATE = { 41 };

    ghost ANSWER = { ctc_len };

    ghost fresh_device = { fresh_ctc };

    ghost fresh_image = { image_ctc fresh_ctc };

    ghost restored = { restored_ctc };

    ghost save_code = { save_code_ctc };

    ghost saved = { saved_ctc };

    ghost happened = { event_ctc };

    ghost lines_of = { lines_ctc };

    ghost code_of = { λ a. a.code };

    ghost bytes_of = { ctc_bytes };

    ghost long = { ctc_long };

    ghost fills = { ctc_fills };

    ghost image_long = { ctc_image_long };

    fn fresh() -> Ctc {
        Ctc::fresh()
    }

    fn restore(state: &[u8]) -> Restored<Ctc> {
        ctc_image::restore(state)
    }

    fn save(self, state: &mut [u8]) -> Result<(), Refusal> {
        ctc_image::save(self, state)
    }

    fn event(self, e: Event) -> Outcome<Ctc, CtcAnswer> {
        ctc_event::event(self, e)
    }

    fn lines(self) -> Lines {
        ctc_event::lines(self)
    }

    fn code(a: CtcAnswer) -> u8 {
        a.code
    }

    fn lay(a: CtcAnswer, buf: &mut [u8]) {
        basics::lay(buf, 0, &answers::ctc(a));
    }
}

// The device of a state, unless the call is refused: with the code of the state's restore, then with 7 for an answer buffer that is
// too short.
// Stays: the refusal is a number, since `Restored.code` is one and C gets it.
#[tactic(auto, unfolding(crate::specs::Calls::refusal_of, crate::specs::Calls::opened_by, rules::specs::Refusals::refusal_number))]
pub(crate) fn opened<D: Hosted>(state: &[u8], room: usize, needed: usize) -> Result<D, u8>
    ensures { result ≡ opened_by (D.restored state.now) room needed }
{
    let s = D::restore(state);
    if s.code != 0 {
        return Err(s.code);
    }
    if room < needed {
        return Err(Refusal::Length.number());
    }
    Ok(s.device)
}

// Saves the device after a call, and lays the answer's bytes. Answers the code.
pub(crate) fn settle<D: Hosted>(o: Outcome<D, D::Answer>, state: &mut [u8], answer: &mut [u8]) -> u8
    ensures { called result state.new answer.new
        ≡ called (D.code_of o.answer) (D.saved o.device state.old) (laid_of answer.old 0 (D.bytes_of o.answer)) }
{
    let _ = o.device.save(state);
    D::lay(o.answer, answer);
    D::code(o.answer)
}

// The fresh device's image into a buffer of exactly its length. Codes: 7 for another length, with nothing written, else 0.
#[tactic(auto, unfolding(crate::specs::Calls::fresh_code, crate::specs::Calls::fresh_state, rules::specs::Refusals::refusal_number))]
pub(crate) fn fresh<D: Hosted>(state: &mut [u8]) -> u8
    ensures { (result ≡ fresh_code D.fresh_image state.old) × (state.new ≡ fresh_state D.fresh_image state.old) }
{
    if state.len() != D::STATE {
        return Refusal::Length.number();
    }
    rules::code(D::fresh().save(state))
}

// An event, in place.
pub(crate) fn event<D: Hosted>(state: &mut [u8], e: Event, answer: &mut [u8]) -> u8
    ensures { called result state.new answer.new
        ≡ hosted D.restored D.saved D.code_of D.bytes_of state.old (λ d. D.happened d e) answer.old }
{
    match opened::<D>(state, answer.len(), D::ANSWER) {
        Ok(d) => settle(d.event(e), state, answer),
        Err(code) => code,
    }
}

// The lines, with no event.
pub(crate) fn lines<D: Hosted>(state: &[u8], answer: &mut [u8]) -> u8
    ensures { called result state.now answer.new ≡ hosted_lines D.restored D.lines_of state.now answer.old }
{
    match opened::<D>(state, answer.len(), answers::LINES) {
        Ok(d) => {
            basics::lay(answer, 0, &answers::lines(d.lines()));
            0
        }
        Err(code) => code,
    }
}
