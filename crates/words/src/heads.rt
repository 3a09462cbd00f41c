// The lines that have no columns.
ghost use Rattle.std.specs.Prelude.{◌≡◌};
ghost use Rattle.texts.specs.Kept.{no_text, typed};
ghost use Rattle.words.specs.Shown.{pointer_line, version_line, master_line, link_line, levels_line, request_line, acknowledge_line};

use crate::cells::{bit, byte_cell, named};
use rules::Device;
use texts::Text;

// The bits of the master interrupt register.
const MIE: u8 = 7;

const DLC: u8 = 6;

const NV: u8 = 5;

const VIS_A: u8 = 4;

const VIS_B: u8 = 3;

const VIS_CT: u8 = 2;

const RJA: u8 = 1;

const RESET: u8 = 0;

#[tactic(auto, unfolding(crate::specs::Shown::version_line, texts::specs::Spelled::spelled))]
pub(crate) fn version_line(version: u8) -> Text
    ensures { result ≡ typed no_text (version_line version) }
{
    let t = Text::new();
    if version == 1 {
        return t.word(b"version         1\n");
    }
    t.word(b"version         2\n")
}

// What a Z8536 has beside its core: the pointer, and 1 where it was set just now.
#[tactic(auto, using(texts::proofs::Typing::typed_append), unfolding(texts::specs::Kept::typed, crate::specs::Shown::pointer_line, texts::specs::Spelled::spelled))]
pub fn pointer_line(pointer: u8, pointed: bool) -> Text
    ensures { result ≡ typed no_text (pointer_line pointer pointed) }
{
    let t = byte_cell(Text::new().word(b"Z8536 pointer   "), pointer);
    named(t, b"  state ", pointed).push(b'\n')
}

#[tactic(auto, using(texts::proofs::Typing::typed_append), unfolding(texts::specs::Kept::typed, crate::specs::Shown::master_line, texts::specs::Spelled::spelled))]
pub(crate) fn master_line(m: u8) -> Text
    ensures { result ≡ typed no_text (master_line m) }
{
    let mie = named(Text::new(), b"master          MIE ", bit(m, MIE));
    let dlc = named(mie, b"  DLC ", bit(m, DLC));
    let nv = named(dlc, b"  NV ", bit(m, NV));
    let vis_a = named(nv, b"  VIS A ", bit(m, VIS_A));
    let vis_b = named(vis_a, b"  VIS B ", bit(m, VIS_B));
    let vis_ct = named(vis_b, b"  VIS CT ", bit(m, VIS_CT));
    let rja = named(vis_ct, b"  RJA ", bit(m, RJA));
    named(rja, b"  RESET ", bit(m, RESET)).push(b'\n')
}

// What LC makes of CT1's output.
#[tactic(auto, unfolding(crate::specs::Shown::link_line, texts::specs::Spelled::spelled))]
pub(crate) fn link_line(lc: u8) -> Text
    ensures { result ≡ typed no_text (link_line lc) }
{
    let t = Text::new();
    match lc {
        0 => t.word(b"CT1's output    is not linked to CT2\n"),
        1 => t.word(b"CT1's output    gates CT2\n"),
        2 => t.word(b"CT1's output    triggers CT2\n"),
        _ => t.word(b"CT1's output    is what CT2 counts\n"),
    }
}

#[tactic(auto, using(texts::proofs::Typing::typed_append), unfolding(texts::specs::Kept::typed, crate::specs::Shown::levels_line, texts::specs::Spelled::spelled))]
pub(crate) fn levels_line(d: Device) -> Text
    ensures { result ≡ typed no_text (levels_line d) }
{
    let t1 = named(Text::new(), b"lines           INT ", d.lines.int);
    let t2 = named(t1, b"  IEO ", d.lines.ieo);
    let t3 = named(t2, b"  IEI ", d.iei);
    named(t3, b"  phase ", d.phase).push(b'\n')
}

// Who requests: the place as it is stored.
#[tactic(auto, unfolding(crate::specs::Shown::request_line, texts::specs::Spelled::spelled))]
pub(crate) fn request_line(k: u8) -> Text
    ensures { result ≡ typed no_text (request_line k) }
{
    let t = Text::new();
    match k {
        1 => t.word(b"requesting      place 1, CT3\n"),
        2 => t.word(b"requesting      place 2, port A\n"),
        3 => t.word(b"requesting      place 3, CT2\n"),
        4 => t.word(b"requesting      place 4, port B\n"),
        5 => t.word(b"requesting      place 5, CT1\n"),
        _ => t.word(b"requesting      place 0, nobody\n"),
    }
}

#[tactic(auto, using(texts::proofs::Typing::typed_append), unfolding(texts::specs::Kept::typed, crate::specs::Shown::acknowledge_line, texts::specs::Spelled::spelled))]
pub(crate) fn acknowledge_line(d: Device) -> Text
    ensures { result ≡ typed no_text (acknowledge_line d) }
{
    let t = Text::new().word(b"K would give    ");
    if interrupts::requester_of(d).is_some() {
        return byte_cell(t, interrupts::acknowledge(d)).push(b'\n');
    }
    t.word(b"code 6\n")
}
