// The bodies of an image, read: the record that they tell, and whether their unused bits are 0.
ghost use Rattle.std.specs.Prelude.{◌≡◌, ◌<◌};
ghost use Rattle.ctc_image.specs.Layout.{channel_byte, channel_in, told_ctc, channel_clear, clear_ctc};

use basics::Place;
use ctc_rules::{Channel, Ctc};

// Byte k of channel i.
fn byte(b: &[u8], i: Place<4>, k: usize) -> u8
    requires { k < 7 }
    ensures { result ≡ channel_byte b.now i k }
{
    basics::byte_at(b, k + 7 * i.index())
}

#[tactic(auto, unfolding(crate::specs::Layout::channel_in))]
fn channel(b: &[u8], i: Place<4>) -> Channel
    ensures { result ≡ channel_in b.now i }
{
    let flags = byte(b, i, 4);
    Channel {
        control: byte(b, i, 0),
        constant: byte(b, i, 1),
        count: byte(b, i, 2),
        prescaler: byte(b, i, 3),
        loaded: flags % 2 == 1,
        awaits: flags / 2 % 2 == 1,
        running: flags / 4 % 2 == 1,
        ip: byte(b, i, 5) == 1,
        ius: byte(b, i, 6) == 1,
    }
}

#[tactic(auto, unfolding(crate::specs::Layout::told_ctc))]
pub(crate) fn record(b: &[u8], l: &[u8]) -> Ctc
    ensures { result ≡ told_ctc b.now l.now }
{
    Ctc {
        channels: [
            channel(b, Place { at: 0 }),
            channel(b, Place { at: 1 }),
            channel(b, Place { at: 2 }),
            channel(b, Place { at: 3 }),
        ],
        vector: basics::byte_at(l, 0),
        levels: basics::byte_at(l, 1),
        iei: basics::byte_at(l, 2) == 1,
    }
}

#[tactic(auto, unfolding(crate::specs::Layout::channel_clear))]
fn channel_clear(b: &[u8], i: Place<4>) -> bool
    ensures { result ≡ channel_clear b.now i }
{
    (byte(b, i, 4) < 8) & (byte(b, i, 5) < 2) & (byte(b, i, 6) < 2)
}

#[tactic(auto, unfolding(crate::specs::Layout::clear_ctc))]
pub(crate) fn clear(b: &[u8], l: &[u8]) -> bool
    ensures { result ≡ clear_ctc b.now l.now }
{
    channel_clear(b, Place { at: 0 })
        & channel_clear(b, Place { at: 1 })
        & channel_clear(b, Place { at: 2 })
        & channel_clear(b, Place { at: 3 })
        & (basics::byte_at(l, 2) < 2)
}
