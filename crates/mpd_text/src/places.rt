// Positions in a text.
ghost use Rattle.std.specs.Prelude.{◌≡◌, ◌≤◌, length};
ghost use Rattle.bridge_io.specs.Places.{place_of};
ghost use Rattle.mpd_tree.specs.Faults as faults;
ghost use Rattle.mpd_tree.specs.Meaning as spec;

use bridge_io::Place;
use byte_scan::count_lf;
use mpd_tree::{Fault, Stop, TextFault, Wrong};

/// The position of a byte, or of the end.
pub(crate) fn place_at(bytes: &[u8], at: usize) -> Place
    requires { at ≤ length bytes.now }
    ensures { result ≡ place_of bytes.now at }
{
    Place {
        at: at as u64,
        line: count_lf(&bytes[..at]) + 1,
    }
}

/// A fault with its position, counted from the start.
fn placed(bytes: &[u8], fault: Fault) -> TextFault
    ensures { result ≡ faults.placed bytes.now fault }
{
    if fault.decided == 0 {
        return TextFault::Cut(place_at(bytes, bytes.len()));
    }
    let place = place_at(bytes, bytes.len().saturating_sub(fault.told));
    match fault.wrong {
        Wrong::Syntax => TextFault::Syntax(place),
        Wrong::TagMismatch => TextFault::TagMismatch(place),
        Wrong::DoubleAttribute => TextFault::DoubleAttribute(place),
        Wrong::Entity => TextFault::Entity(place),
        Wrong::Doctype => TextFault::Doctype(place),
        Wrong::Cdata => TextFault::Cdata(place),
        Wrong::Instruction => TextFault::Instruction(place),
        Wrong::Depth => TextFault::Depth(place),
    }
}

/// The fault that stopped reading, as callers see it.
#[cold]
pub(crate) fn told(bytes: &[u8], stop: Stop) -> TextFault
    ensures { result ≡ spec.stop_told bytes.now stop }
{
    match stop {
        Stop::Memory => TextFault::Memory,
        Stop::Fault(fault) => placed(bytes, fault),
    }
}
