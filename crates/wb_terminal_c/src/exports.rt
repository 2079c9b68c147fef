//! What C calls. A terminal is a pointer to memory of the caller's: `weighbridge_terminal_open` makes one there, and each
//! other call takes it and hands it back. A null is refused.
ghost use Rattle.std.specs.Borrow.{sem};
ghost use Rattle.std.specs.Mem.{type_size};
ghost use Rattle.std.specs.Prelude.{◌≡◌, ◌∷◌, List, length, slice_get, take};
ghost use Rattle.std.specs.Ptr.{if_non_null};
ghost use Rattle.wb_instrument.specs.Setup.{Setup as InstrumentSetup};
ghost use Rattle.wb_sics.specs.Event.{TerminalEvent, byte as byte_event, hang_up as hang_up_event, reading as reading_event};
ghost use Rattle.wb_terminal_c.specs.Copied.{copied};
ghost use Rattle.wb_terminal_c.specs.Heard.{heard_after};
ghost use Rattle.wb_terminal_c.specs.Passed.{setup_passed};
ghost use Rattle.wb_terminal_c.specs.Placed.{IsOpened, answer_at, count_at, indication_at, opened_at, replies_at, room_for_terminal, taken_at, terminal_at, type_alignment};
ghost use Rattle.wb_terminal_c.specs.contracts.handle.Handle.{the_row as handle_row};
ghost use Rattle.wb_terminal_c.specs.contracts.setup.Setup.{the_row as setup_row};
ghost use Rattle.wb_window.specs.Reading.{reading_of};
ghost use denote.RawPtr.{Testable};

use crate::handle::{
    DONE, Handle, copy_reply, count, fault, hang_up, hear, hear_all, indicate, opened, read,
};
use crate::indication::Indication;
use crate::setup::Setup;

/// What is answered at null.
const NO_TERMINAL: u32 = 10;

/// The count that `weighbridge_terminal_take` returns at null. No slice has as many bytes.
const NO_COUNT: usize = 18_446_744_073_709_551_615;

/// The version of what C calls: 10,000 for the first place, 100 for the second, 1 for the third.
const VERSION: u32 = 20_101;

/// The version.
#[unsafe(no_mangle)]
pub extern "C" fn weighbridge_terminal_version() -> u32
    ensures { result ≡ 20101 }
{
    VERSION
}

/// The bytes that a terminal takes.
#[unsafe(no_mangle)]
pub extern "C" fn weighbridge_terminal_size() -> usize
    ensures { result ≡ type_size handle_row }
{
    size_of::<Handle>()
}

/// The power of two that the address of a terminal is a multiple of.
#[unsafe(no_mangle)]
pub extern "C" fn weighbridge_terminal_alignment() -> usize
    ensures { result ≡ type_alignment handle_row }
{
    align_of::<Handle>()
}

/// Returns the size of a setup in bytes, as this library was built with it, so that a caller can compare its own declaration.
#[unsafe(no_mangle)]
pub extern "C" fn weighbridge_terminal_setup_size() -> usize
    ensures { result ≡ type_size setup_row }
{
    size_of::<Setup>()
}

/// Takes a reading of the load converter, in tenths of e; any load out of its range is a lost reading. Answers 0, or 10 at null.
#[unsafe(no_mangle)]
pub unsafe extern "C" fn weighbridge_terminal_reading(handle: *mut u8, tenths: i64) -> u32
    ghost g: { InstrumentSetup × List TerminalEvent }
    requires* { ⌜ Testable handle ⌝ ∗ sem 𝓛 (if_non_null handle (terminal_at g.0 g.1 handle)) }
    ensures* { sem 𝓛 (if_non_null handle (terminal_at g.0 (reading_event (reading_of tenths) ∷ g.1) handle))
        ∗ ⌜ result ≡ answer_at handle ⌝ }
{
    if handle.is_null() {
        return NO_TERMINAL;
    }
    read(&mut *(handle as *mut Handle), tenths)
}

/// Takes a byte of the stream. Answers 0, or 10 at null.
#[unsafe(no_mangle)]
pub unsafe extern "C" fn weighbridge_terminal_byte(handle: *mut u8, byte: u8) -> u32
    ghost g: { InstrumentSetup × List TerminalEvent }
    requires* { ⌜ Testable handle ⌝ ∗ sem 𝓛 (if_non_null handle (terminal_at g.0 g.1 handle)) }
    ensures* { sem 𝓛 (if_non_null handle (terminal_at g.0 (byte_event byte ∷ g.1) handle))
        ∗ ⌜ result ≡ answer_at handle ⌝ }
{
    if handle.is_null() {
        return NO_TERMINAL;
    }
    hear(&mut *(handle as *mut Handle), byte)
}

/// The connection ended. Answers 0, or 10 at null.
#[unsafe(no_mangle)]
pub unsafe extern "C" fn weighbridge_terminal_hang_up(handle: *mut u8) -> u32
    ghost g: { InstrumentSetup × List TerminalEvent }
    requires* { ⌜ Testable handle ⌝ ∗ sem 𝓛 (if_non_null handle (terminal_at g.0 g.1 handle)) }
    ensures* { sem 𝓛 (if_non_null handle (terminal_at g.0 (hang_up_event ∷ g.1) handle))
        ∗ ⌜ result ≡ answer_at handle ⌝ }
{
    if handle.is_null() {
        return NO_TERMINAL;
    }
    hang_up(&mut *(handle as *mut Handle))
}

/// How many replies there are at the newest event; none at null.
#[unsafe(no_mangle)]
pub unsafe extern "C" fn weighbridge_terminal_replies(handle: *mut u8) -> usize
    ghost g: { InstrumentSetup × List TerminalEvent }
    requires* { ⌜ Testable handle ⌝ ∗ sem 𝓛 (if_non_null handle (terminal_at g.0 g.1 handle)) }
    ensures* { sem 𝓛 (if_non_null handle (terminal_at g.0 g.1 handle))
        ∗ ⌜ result ≡ length (replies_at handle g.0 g.1) ⌝ }
{
    if handle.is_null() {
        return 0;
    }
    count(&mut *(handle as *mut Handle))
}

/// Takes bytes of the stream: all of them, or those up to the first at which there is a reply. Answers how many it took; none at
/// null.
#[unsafe(no_mangle)]
pub unsafe extern "C" fn weighbridge_terminal_bytes(handle: *mut u8, bytes: &[u8]) -> usize
    ghost g: { InstrumentSetup × List TerminalEvent }
    requires* { ⌜ Testable handle ⌝ ∗ sem 𝓛 (if_non_null handle (terminal_at g.0 g.1 handle)) }
    ensures* { sem 𝓛 (if_non_null handle (terminal_at g.0 (heard_after (take result bytes.now) g.1) handle))
        ∗ ⌜ result ≡ taken_at handle g.0 g.1 bytes.now ⌝ }
{
    if handle.is_null() {
        return 0;
    }
    hear_all(&mut *(handle as *mut Handle), bytes)
}

/// Processes bytes as `weighbridge_terminal_bytes` does, and returns how many it took. At null it returns `NO_COUNT`, so that "no
/// terminal" is no count of bytes.
#[unsafe(no_mangle)]
pub unsafe extern "C" fn weighbridge_terminal_take(handle: *mut u8, bytes: &[u8]) -> usize
    ghost g: { InstrumentSetup × List TerminalEvent }
    requires* { ⌜ Testable handle ⌝ ∗ sem 𝓛 (if_non_null handle (terminal_at g.0 g.1 handle)) }
    ensures* { sem 𝓛 (if_non_null handle (terminal_at g.0 (heard_after (take result bytes.now) g.1) handle))
        ∗ ⌜ result ≡ count_at handle g.0 g.1 bytes.now ⌝ }
{
    if handle.is_null() {
        return NO_COUNT;
    }
    hear_all(&mut *(handle as *mut Handle), bytes)
}

/// Copies a reply at the newest event, with its CR LF: the first is at 0. Answers how many bytes it has, 32 at most. If there is
/// no such reply or not enough room, or at null, it copies nothing and answers 0.
#[unsafe(no_mangle)]
pub unsafe extern "C" fn weighbridge_terminal_reply(
    handle: *mut u8,
    place: usize,
    buffer: &mut [u8],
) -> usize
    ghost g: { InstrumentSetup × List TerminalEvent }
    requires* { ⌜ Testable handle ⌝ ∗ sem 𝓛 (if_non_null handle (terminal_at g.0 g.1 handle)) }
    ensures* { sem 𝓛 (if_non_null handle (terminal_at g.0 g.1 handle))
        ∗ ⌜ (result ≡ (copied (slice_get (replies_at handle g.0 g.1) place) buffer.old).0)
        × (buffer.new ≡ (copied (slice_get (replies_at handle g.0 g.1) place) buffer.old).1) ⌝ }
{
    if handle.is_null() {
        return 0;
    }
    copy_reply(&mut *(handle as *mut Handle), place, buffer)
}

/// Tells what is indicated. Answers 0, or 10 at null.
#[unsafe(no_mangle)]
pub unsafe extern "C" fn weighbridge_terminal_indicate(
    handle: *mut u8,
    shown: &mut Indication,
) -> u32
    ghost g: { InstrumentSetup × List TerminalEvent }
    requires* { ⌜ Testable handle ⌝ ∗ sem 𝓛 (if_non_null handle (terminal_at g.0 g.1 handle)) }
    ensures* { sem 𝓛 (if_non_null handle (terminal_at g.0 g.1 handle))
        ∗ ⌜ (result ≡ answer_at handle) × (shown.new ≡ indication_at handle g.0 g.1 shown.old) ⌝ }
{
    if handle.is_null() {
        return NO_TERMINAL;
    }
    indicate(&mut *(handle as *mut Handle), shown)
}

/// Makes a terminal of this setup in the caller's memory. Answers 0, or the number of the first part that is outside its limits, or 10 at
/// null, and then there is none.
#[unsafe(no_mangle)]
pub unsafe extern "C" fn weighbridge_terminal_open(handle: *mut u8, setup: &Setup) -> u32
    requires* { ⌜ Testable handle ⌝ ∗ sem 𝓛 (if_non_null handle (room_for_terminal handle)) }
    ensures* { sem 𝓛 (if_non_null handle (opened_at (setup_passed setup.now) result handle))
        ∗ ⌜ IsOpened handle (setup_passed setup.now) result ⌝ }
{
    if handle.is_null() {
        return NO_TERMINAL;
    }
    let answer = fault(setup);
    if answer == DONE {
        std::ptr::write(handle as *mut Handle, opened(setup));
    }
    answer
}
