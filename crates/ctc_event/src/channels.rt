// One channel: its count, an edge, n clocks by division, and the words that are written to it.
ghost use Rattle.std.specs.Prelude.{◌≡◌, ◌<◌, ◌≤◌, true};
ghost use Rattle.basics.specs.Iterate.{iterate};
ghost use Rattle.ctc_rules.specs.Record.{counter_mode, factor_of};
ghost use Rattle.ctc_rules.specs.Channels.{count_channel, timer_runs, started_of, edge_channel, active_edge, level_channel, stored_word, soft_reset, goes_on, control_word, stored_constant, constant_word};
ghost use Rattle.ctc_rules.specs.Sound.{sound_channel};
ghost use Rattle.ctc_laws.specs.Divided.{tick_channel, unticked, timer_counts, zeros_in, down_after, timer_after};

use ctc_rules::{Channel, ChannelRan, Zeroed};

fn counter_mode(c: Channel) -> bool
    ensures { result ≡ counter_mode c }
{
    c.control / 64 % 2 == 1
}

// ---- counting
#[tactic(auto, unfolding(ctc_rules::specs::Channels::count_channel))]
fn count(c: Channel) -> Zeroed
    ensures { result ≡ count_channel c }
{
    let n = c.count.wrapping_sub(1);
    if n == 0 {
        return Zeroed {
            channel: Channel {
                count: c.constant,
                ip: c.ip | (c.control / 128 % 2 == 1),
                ..c
            },
            zero: true,
        };
    }
    Zeroed {
        channel: Channel { count: n, ..c },
        zero: false,
    }
}

// ---- edges
fn start(c: Channel) -> Channel
    ensures { result ≡ started_of c }
{
    Channel {
        running: true,
        prescaler: 0,
        ..c
    }
}

#[tactic(auto, unfolding(ctc_rules::specs::Channels::edge_channel))]
fn edge(c: Channel) -> Channel
    ensures { result ≡ edge_channel c }
{
    if !c.loaded {
        return c;
    }
    if counter_mode(c) {
        return count(c).channel;
    }
    if c.running {
        return c;
    }
    start(c)
}

#[tactic(auto, unfolding(ctc_rules::specs::Channels::active_edge))]
fn is_active(c: Channel, before: bool, after: bool) -> bool
    ensures { result ≡ active_edge c before after }
{
    if c.control / 16 % 2 == 1 {
        return !before & after;
    }
    !after & before
}

// A trigger level before and after.
#[tactic(auto, unfolding(ctc_rules::specs::Channels::level_channel))]
pub(crate) fn level(c: Channel, before: bool, after: bool) -> Channel
    ensures { result ≡ level_channel c before after }
{
    if is_active(c, before, after) {
        return edge(c);
    }
    c
}

// ---- words
fn store(c: Channel, b: u8) -> Channel
    ensures { result ≡ stored_word c b }
{
    Channel {
        control: b / 8 * 8,
        awaits: b / 4 % 2 == 1,
        ..c
    }
}

fn soft_reset(c: Channel) -> Channel
    ensures { result ≡ soft_reset c }
{
    Channel {
        constant: 0,
        loaded: false,
        running: false,
        prescaler: 0,
        ..c
    }
}

#[tactic(auto, unfolding(ctc_rules::specs::Channels::goes_on))]
fn go_on(c: Channel) -> Channel
    ensures { result ≡ goes_on c }
{
    if counter_mode(c) {
        return Channel {
            running: c.loaded,
            prescaler: 0,
            ..c
        };
    }
    if c.control / 32 % 2 == 1 {
        return c;
    }
    Channel {
        prescaler: c.prescaler % 16,
        ..c
    }
}

#[tactic(auto, unfolding(ctc_rules::specs::Channels::control_word))]
pub(crate) fn control(c: Channel, b: u8) -> Channel
    ensures { result ≡ control_word c b }
{
    let s = store(c, b);
    if b / 2 % 2 == 1 {
        return soft_reset(s);
    }
    let e = go_on(s);
    if (b / 16 % 2 == 1) != (c.control / 16 % 2 == 1) {
        return edge(e);
    }
    e
}

fn keep_constant(c: Channel, b: u8) -> Channel
    ensures { result ≡ stored_constant c b }
{
    Channel {
        constant: b,
        loaded: true,
        awaits: false,
        ..c
    }
}

#[tactic(auto, unfolding(ctc_rules::specs::Channels::constant_word))]
pub(crate) fn constant(c: Channel, b: u8) -> Channel
    ensures { result ≡ constant_word c b }
{
    let kept = keep_constant(c, b);
    if c.running {
        return kept;
    }
    let e = Channel { count: b, ..kept };
    if counter_mode(c) | !(c.control / 8 % 2 == 1) {
        return start(e);
    }
    e
}

// ---- clocks
// The highest number that a channel holds.
const LAST: u16 = 255;

// The zero counts of k counts.
#[tactic(auto, unfolding(ctc_laws::specs::Divided::zeros_in))]
fn zeros(c: Channel, k: u32) -> u32
    ensures { result ≡ zeros_in c k }
{
    alone::terminals_after(LAST, c.count as u16, c.constant as u16, k)
}

// The down-counter after them; 256 is 0.
#[tactic(auto, unfolding(ctc_laws::specs::Divided::down_after))]
fn down(c: Channel, k: u32) -> u8
    ensures { result ≡ down_after c k }
{
    alone::count_after(LAST, c.count as u16, c.constant as u16, k) as u8
}

#[tactic(auto, unfolding(ctc_rules::specs::Record::factor_of))]
fn factor(c: Channel) -> u64
    ensures { (result ≡ factor_of c) × (16 ≤ result) × (result ≤ 256) }
{
    if c.control / 32 % 2 == 1 {
        return 256;
    }
    16
}

#[tactic(auto, unfolding(ctc_rules::specs::Channels::timer_runs))]
fn timer_runs(c: Channel) -> bool
    ensures { result ≡ timer_runs c }
{
    c.running & !counter_mode(c)
}

// A timer that runs, after n clocks.
#[tactic(auto, unfolding(ctc_laws::specs::Divided::timer_after, ctc_laws::specs::Divided::timer_counts))]
fn timer(c: Channel, n: u32) -> ChannelRan
    ensures { result ≡ timer_after c n (timer_counts c n) }
{
    let f = factor(c);
    let m = (c.prescaler as u64) + (n as u64);
    let k = (m / f) as u32;
    let zeros = zeros(c, k);
    ChannelRan {
        channel: Channel {
            prescaler: (m % f) as u8,
            count: down(c, k),
            ip: c.ip | ((c.control / 128 % 2 == 1) & (zeros != 0)),
            ..c
        },
        zeros,
    }
}

// A channel after n clocks.
pub(crate) fn clocks(c: Channel, n: u32) -> ChannelRan
    requires { sound_channel c ≡ true }
    ensures { result ≡ iterate n tick_channel (unticked c) }
{
    if timer_runs(c) {
        return timer(c, n);
    }
    ChannelRan {
        channel: c,
        zeros: 0,
    }
}
