//! Values from outside, over both windows, and that both windows answer alike.
use std::alloc::Global;
use std::process::Abort;
use std::test::Fail;
use wb_window::{DequeWindow, Reading, RingWindow, Window};

/// A number of a converter, and the reading that it is.
static READINGS: [(i64, Reading); 7] = [
    (0, Reading::Load(0)),
    (2_000_000, Reading::Load(2_000_000)),
    (-2_000_000, Reading::Load(-2_000_000)),
    (2_000_001, Reading::Lost),
    (-2_000_001, Reading::Lost),
    (i64::MIN, Reading::Lost),
    (i64::MAX, Reading::Lost),
];

#[test]
fn takes_numbers_in_range_as_loads(rt: HostRuntime) {
    for (tenths, reading) in READINGS.as_slice() {
        let found = Reading::of(*tenths);
        assert!(rt; found == *reading, "{tenths} tenths: {found:?}");
    }
}

/// Readings of a window of four and a band of two tenths, and whether it is stable after each.
static STEPS: [(Reading, bool); 10] = [
    (Reading::Load(9_170), false),
    (Reading::Load(9_172), false),
    (Reading::Load(9_171), false),
    (Reading::Load(9_170), true),
    (Reading::Load(9_173), false),
    (Reading::Lost, false),
    (Reading::Load(9_173), false),
    (Reading::Load(9_173), false),
    (Reading::Load(9_172), false),
    (Reading::Load(9_171), true),
];

fn is_fresh<W: Window>(window: &W) -> bool {
    window.size() == 4 && window.band() == 2 && window.last().is_none()
}

/// Takes a reading. Whether the window is then as stable as is wanted, and has it as its last.
fn is_as_wanted<W: Window>(window: &mut W, reading: Reading, stable: bool) -> bool {
    window.read(reading);
    window.stable() == stable && window.last() == Some(reading)
}

/// Of a fresh window of four readings and a band of two tenths.
fn stable_of_as_many_loads_within_the_band<W: Window>(rt: &impl Abort, window: &mut W) {
    assert!(rt; is_fresh(window));
    for (place, (reading, stable)) in STEPS.iter().enumerate() {
        let is_right = is_as_wanted(window, *reading, *stable);
        assert!(rt; is_right, "at {place}");
    }
}

#[test]
fn is_stable_of_as_many_loads_within_the_band(rt: HostRuntime) -> Result<(), Fail> {
    stable_of_as_many_loads_within_the_band(&rt, &mut RingWindow::new(rt.alloc(), 4, 2)?);
    stable_of_as_many_loads_within_the_band(&rt, &mut DequeWindow::new(rt.alloc(), 4, 2)?);
    Ok(())
}

/// Whether a fresh window is stable after these loads.
fn stable_after<W: Window>(window: &mut W, loads: &[i32]) -> bool {
    for load in loads {
        window.read(Reading::Load(*load));
    }
    window.stable()
}

static ENDS: [i32; 5] = [9_172, 9_172, 9_170, 9_170, 9_169];

fn stable_after_ends(alloc: Global, size: usize) -> Result<[bool; 2], Fail> {
    let mut ring = RingWindow::new(alloc, size, 2)?;
    let mut deque = DequeWindow::new(alloc, size, 2)?;
    Ok([
        stable_after(&mut ring, &ENDS),
        stable_after(&mut deque, &ENDS),
    ])
}

#[test]
fn ends_that_agree_do_not_make_it_stable(rt: HostRuntime) -> Result<(), Fail> {
    for size in [4, 5] {
        let stable = stable_after_ends(rt.alloc(), size)?;
        assert!(rt; stable == [false, false], "{size} readings: {stable:?}");
    }
    Ok(())
}

/// Readings of a bridge on which loads come, stand more or less still, and are lost now and then. They are the same from
/// run to run.
#[derive(Drop)]
struct Bridge {
    random: u64,
    load: u32,
    unrest: u32,
}

impl Bridge {
    fn new() -> Self {
        Bridge {
            random: 20_061_001,
            load: 9_170,
            unrest: 0,
        }
    }

    /// A number below the bound (the linear congruential generator of Knuth's MMIX, its upper half).
    fn below(&mut self, bound: u32) -> u32 {
        self.random = self
            .random
            .wrapping_mul(6_364_136_223_846_793_005)
            .wrapping_add(1_442_695_040_888_963_407);
        let upper = (self.random >> 32) as u32;
        if bound == 0 { 0 } else { upper % bound }
    }

    fn reading(&mut self) -> Reading {
        let event = self.below(200);
        if event == 0 {
            return Reading::Lost;
        }
        if event == 1 {
            self.load = self.below(10_000);
            self.unrest = self.below(4);
        }
        let jitter = self.below(self.unrest.saturating_add(1));
        Reading::of(i64::from(self.load) + i64::from(jitter))
    }
}

/// Whether both windows answer the same once they have a reading: then whether they are stable.
fn both_after(ring: &mut RingWindow, deque: &mut DequeWindow, reading: Reading) -> Option<bool> {
    ring.read(reading);
    deque.read(reading);
    if ring.stable() == deque.stable() && ring.last() == deque.last() {
        Some(ring.stable())
    } else {
        None
    }
}

/// How often both windows are stable over 100,000 readings, or the place at which they don't answer alike.
fn times_stable(ring: &mut RingWindow, deque: &mut DequeWindow) -> Result<u32, u32> {
    let mut bridge = Bridge::new();
    let mut times = 0u32;
    for place in 0..100_000u32 {
        let is_stable = both_after(ring, deque, bridge.reading()).ok_or(place)?;
        times = times.saturating_add(u32::from(is_stable));
    }
    Ok(times)
}

fn answer_alike(alloc: Global, size: usize, band: u32) -> Result<Result<u32, u32>, Fail> {
    let mut ring = RingWindow::new(alloc, size, band)?;
    let mut deque = DequeWindow::new(alloc, size, band)?;
    Ok(times_stable(&mut ring, &mut deque))
}

#[test]
fn both_windows_answer_alike(rt: HostRuntime) -> Result<(), Fail> {
    for size in [4, 5, 16, 64] {
        for band in [1, 2] {
            let stable = answer_alike(rt.alloc(), size, band)?;
            let is_mixed = matches!(&stable, Ok(times) if 5_000 < *times && *times < 95_000);
            assert!(rt; is_mixed, "{size} readings, {band} tenths: {stable:?}");
        }
    }
    Ok(())
}
