// The bodies of a record, written.
ghost use Rattle.std.specs.Prelude.{◌≡◌, ◌++◌, ◌≤◌, length, drop};
ghost use Rattle.ctc_image.specs.Layout.{channel_flags, channel_bytes, rest_body, image_ctc};

use ctc_rules::{Channel, Ctc};

// D0 loaded, D1 awaits, D2 running.
fn flags(c: Channel) -> u8
    ensures { result ≡ channel_flags c }
{
    basics::weight(c.loaded, 1) + basics::weight(c.awaits, 2) + basics::weight(c.running, 4)
}

#[tactic(auto, unfolding(crate::specs::Layout::channel_bytes))]
fn channel(c: Channel) -> [u8; 7]
    ensures { result ≡ channel_bytes c }
{
    [
        c.control,
        c.constant,
        c.count,
        c.prescaler,
        flags(c),
        basics::weight(c.ip, 1),
        basics::weight(c.ius, 1),
    ]
}

#[tactic(auto, unfolding(crate::specs::Layout::rest_body))]
fn lines(d: Ctc) -> [u8; 3]
    ensures { result ≡ rest_body d }
{
    [d.vector, d.levels, basics::weight(d.iei, 1)]
}

// The image over the first bytes of a buffer.
#[tactic(auto, unfolding(crate::specs::Layout::channel_bytes, crate::specs::Layout::channels_body, crate::specs::Layout::rest_body, crate::specs::Layout::image_ctc))]
pub(crate) fn write(d: Ctc, buf: &mut [u8])
    requires { 41 ≤ length buf.old }
    ensures { buf.new ≡ image_ctc d ++ drop 41 buf.old }
{
    basics::lay(buf, 0, &crate::TABLE);
    basics::lay(buf, 10, &channel(d.channels[0]));
    basics::lay(buf, 17, &channel(d.channels[1]));
    basics::lay(buf, 24, &channel(d.channels[2]));
    basics::lay(buf, 31, &channel(d.channels[3]));
    basics::lay(buf, 38, &lines(d));
}
