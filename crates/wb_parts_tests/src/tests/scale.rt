//! Values from outside: worked rows of a road weighbridge, e 20 kg and Max 60,000 kg, 10 readings a second, over both
//! windows.
ghost use Rattle.std.specs.Prelude.{◌≡◌, IfOk, []};

use std::alloc::{AllocError, Global};
use std::process::Abort;
use std::test::Fail;
use wb_fixtures::ROAD;
use wb_instrument::{Instrument, Parts};
use wb_scale::{Indicated, PresetAnswer, Scale, TareAnswer, TareNow, ZeroAnswer};
use wb_window::{DequeWindow, Reading, RingWindow, Window};

/// A window that can be made.
pub(super) trait Fresh: Window + Drop {
    fn fresh(alloc: Global, size: usize, band: u32) -> Result<Self, AllocError>
        ensures { IfOk result (λ w. Self.held w
            ≡ record { size = size; band = band; readings = [] }) };
}

impl Fresh for RingWindow {
    fn fresh(alloc: Global, size: usize, band: u32) -> Result<Self, AllocError> {
        RingWindow::new(alloc, size, band)
    }
}

impl Fresh for DequeWindow {
    fn fresh(alloc: Global, size: usize, band: u32) -> Result<Self, AllocError> {
        DequeWindow::new(alloc, size, band)
    }
}

/// A fresh scale that takes so many readings a second.
pub(super) fn scale_at<W: Fresh>(alloc: Global, pace: u32) -> Result<Scale<W>, Fail> {
    let instrument = Instrument::new(Parts { pace, ..ROAD })?;
    let window = W::fresh(alloc, instrument.window() as usize, instrument.band())?;
    Ok(Scale::new(instrument, window))
}

/// What is done to a scale, with its answer, or what it then shows.
#[derive(Clone, Copy, Drop)]
enum Step {
    /// So many readings of one load, in tenths.
    Read(i64, u32),
    Lost,
    ReadForZero(i32, ZeroAnswer),
    Zero(ZeroAnswer),
    Tare(TareAnswer),
    Preset(u64, PresetAnswer),
    ClearTare,
    MarkStored,
    /// Gross and net, and whether they are stable.
    Shows(i32, i32, bool),
    Indicates(Indicated),
    InForce(TareNow),
    IsStable(bool),
    IsCleared(bool),
    HasSerial(&'static str),
}

use Step::{
    ClearTare, HasSerial, InForce, Indicates, IsCleared, IsStable, Lost, MarkStored, Preset, Read,
    ReadForZero, Shows, Tare, Zero,
};

/// What a row shows, the readings a second, and the steps at a fresh scale.
type Row = (&'static str, u32, &'static [Step]);

const INDICATIONS: [Row; 9] = [
    (
        "a fresh scale shows no load",
        10,
        &[
            Indicates(Indicated::NoLoad),
            IsStable(false),
            InForce(TareNow::Empty),
            HasSerial("WB01"),
        ],
    ),
    (
        "a stable load",
        10,
        &[Read(9_170, 4), Shows(917, 917, true)],
    ),
    (
        "nine intervals above Max",
        10,
        &[Read(30_094, 4), Shows(3_009, 3_009, true)],
    ),
    (
        "the first load over",
        10,
        &[Read(30_095, 4), Indicates(Indicated::Over)],
    ),
    (
        "twenty intervals below zero",
        10,
        &[Read(-205, 4), Shows(-20, -20, true)],
    ),
    (
        "the first load under",
        10,
        &[Read(-206, 4), Indicates(Indicated::Under)],
    ),
    (
        "a lost reading shows no load until the next",
        10,
        &[
            Read(9_170, 4),
            Lost,
            Indicates(Indicated::NoLoad),
            Read(9_170, 3),
            Shows(917, 917, false),
            Read(9_170, 1),
            Shows(917, 917, true),
        ],
    ),
    (
        "an equal load stays when the older one goes",
        10,
        &[
            Read(9_172, 2),
            Read(9_170, 2),
            Read(9_169, 1),
            Shows(917, 917, false),
            Read(9_170, 1),
            Shows(917, 917, true),
        ],
    ),
    (
        "three readings are not stable",
        10,
        &[Read(9_170, 3), Shows(917, 917, false)],
    ),
];

const ZERO_SETTING: [Row; 4] = [
    (
        "the zero at its upper limit",
        10,
        &[Read(600, 4), Zero(ZeroAnswer::Done), Shows(0, 0, true)],
    ),
    (
        "the first load above it",
        10,
        &[Read(601, 4), Zero(ZeroAnswer::Above), Shows(60, 60, true)],
    ),
    (
        "the zero at its lower limit",
        10,
        &[Read(-600, 4), Zero(ZeroAnswer::Done), Shows(0, 0, true)],
    ),
    (
        "the first load below it, and loads that aren't stable",
        10,
        &[
            Read(-601, 4),
            Zero(ZeroAnswer::Below),
            Indicates(Indicated::Under),
            Read(0, 3),
            Zero(ZeroAnswer::NotStable),
        ],
    ),
];

const TRACKING: [Row; 7] = [
    (
        "steps at readings 4 and 6",
        10,
        &[Read(3, 7), Read(7, 1), Shows(1, 1, false)],
    ),
    (
        "and a third at 8",
        10,
        &[Read(3, 8), Read(7, 1), Shows(0, 0, false)],
    ),
    (
        "four steps at fifty readings a second",
        50,
        &[Read(-5, 43), Read(-10, 1), Shows(-1, -1, false)],
    ),
    (
        "five steps, half an interval in a second",
        50,
        &[Read(-5, 44), Read(-10, 1), Shows(0, 0, false)],
    ),
    (
        "no further than the limit of the zero",
        10,
        &[
            Read(600, 4),
            Zero(ZeroAnswer::Done),
            Read(601, 8),
            Read(605, 1),
            Shows(1, 1, false),
        ],
    ),
    (
        "from the reading after that which sets the zero",
        10,
        &[
            Read(3, 3),
            ReadForZero(3, ZeroAnswer::Done),
            Read(4, 1),
            Read(8, 1),
            Shows(0, 0, false),
        ],
    ),
    (
        "a reading that cannot set the zero is tracked",
        10,
        &[
            Read(3, 2),
            ReadForZero(3, ZeroAnswer::NotStable),
            Read(3, 4),
            Read(7, 1),
            Shows(1, 1, false),
        ],
    ),
];

const TARES: [Row; 8] = [
    (
        "a weighed tare is kept in tenths",
        10,
        &[
            Read(9_173, 4),
            Tare(TareAnswer::Done(18_340)),
            InForce(TareNow::Weighed(9_173)),
            Read(9_997, 4),
            Shows(1_000, 82, true),
            Preset(5_003_000, PresetAnswer::WeighedInUse),
            Tare(TareAnswer::Done(20_000)),
            ClearTare,
            InForce(TareNow::Empty),
            Shows(1_000, 1_000, true),
        ],
    ),
    (
        "a preset tare is rounded to the interval",
        10,
        &[
            Read(9_170, 4),
            Preset(5_003_000, PresetAnswer::Done(5_000)),
            Preset(5_010_000, PresetAnswer::Done(5_020)),
            Preset(5_000, PresetAnswer::OutOfRange),
            Tare(TareAnswer::PresetInUse),
            InForce(TareNow::Preset(251)),
            Shows(917, 666, true),
        ],
    ),
    (
        "no tare of a load of zero",
        10,
        &[Read(0, 4), Tare(TareAnswer::Below)],
    ),
    (
        "no tare below zero",
        10,
        &[Read(-100, 4), Tare(TareAnswer::Below)],
    ),
    (
        "a tare of Max",
        10,
        &[Read(30_000, 4), Tare(TareAnswer::Done(60_000))],
    ),
    (
        "no tare above Max",
        10,
        &[Read(30_001, 4), Tare(TareAnswer::Above)],
    ),
    (
        "no tare of a load that isn't stable",
        10,
        &[Read(9_170, 3), Tare(TareAnswer::NotStable)],
    ),
    (
        "setting the zero clears the tare",
        10,
        &[
            Preset(5_003_000, PresetAnswer::Done(5_000)),
            Read(0, 4),
            Shows(0, -250, true),
            Zero(ZeroAnswer::Done),
            InForce(TareNow::Empty),
        ],
    ),
];

const BRIDGE: [Row; 6] = [
    (
        "a gross below Min clears the bridge",
        10,
        &[
            IsCleared(false),
            Read(194, 1),
            IsCleared(true),
            Read(9_170, 1),
            IsCleared(true),
            MarkStored,
            IsCleared(false),
        ],
    ),
    (
        "a gross of Min doesn't",
        10,
        &[
            Read(195, 1),
            IsCleared(false),
            Read(9_170, 1),
            IsCleared(false),
            MarkStored,
            IsCleared(false),
        ],
    ),
    (
        "a lost reading doesn't",
        10,
        &[
            Lost,
            IsCleared(false),
            Read(9_170, 1),
            IsCleared(false),
            MarkStored,
            IsCleared(false),
        ],
    ),
    (
        "the least load clears it",
        10,
        &[
            Read(-2_000_000, 1),
            IsCleared(true),
            Read(9_170, 1),
            IsCleared(true),
            MarkStored,
            IsCleared(false),
        ],
    ),
    (
        "a reading that sets the zero clears it",
        10,
        &[
            Read(600, 3),
            IsCleared(false),
            ReadForZero(600, ZeroAnswer::Done),
            IsCleared(true),
        ],
    ),
    (
        "setting the zero clears it at the next reading",
        10,
        &[
            Read(600, 4),
            Zero(ZeroAnswer::Done),
            IsCleared(false),
            Read(600, 1),
            IsCleared(true),
        ],
    ),
];

/// Does a step. Whether the answer, or what the scale shows, is what is wanted.
fn is_wanted<W: Window>(scale: &mut Scale<W>, step: &Step) -> bool {
    match *step {
        Read(tenths, times) => take(scale, tenths, times),
        Lost => {
            scale.read(Reading::Lost);
            true
        }
        ReadForZero(tenths, answer) => {
            scale.read_for_zero(Reading::of(i64::from(tenths))) == answer
        }
        Zero(answer) => scale.zero() == answer,
        Tare(answer) => scale.tare() == answer,
        Preset(grams, answer) => scale.preset(grams) == answer,
        ClearTare => {
            scale.clear_tare();
            true
        }
        MarkStored => {
            scale.mark_stored();
            true
        }
        Shows(gross, net, stable) => {
            scale.indicated() == Indicated::Shown { gross, net, stable }
        }
        Indicates(indicated) => scale.indicated() == indicated,
        InForce(tare) => scale.tare_in_force() == tare,
        IsStable(stable) => scale.is_stable() == stable,
        IsCleared(cleared) => scale.is_cleared() == cleared,
        HasSerial(serial) => scale.instrument().serial().as_str() == serial,
    }
}

/// So many readings of one load, in tenths.
fn take<W: Window>(scale: &mut Scale<W>, tenths: i64, times: u32) -> bool {
    for _ in 0..times {
        scale.read(Reading::of(tenths));
    }
    true
}

/// The rows of a table, over one window.
fn rows<W: Fresh>(rt: &impl Abort, alloc: Global, rows: &[Row]) -> Result<(), Fail> {
    for (shows, pace, steps) in rows {
        let mut scale = scale_at::<W>(alloc, *pace)?;
        for (place, step) in steps.iter().enumerate() {
            let wanted = is_wanted(&mut scale, step);
            assert!(rt; wanted, "{shows}, step {place}");
        }
    }
    Ok(())
}

/// Every table, over one window.
fn tables<W: Fresh>(rt: &impl Abort, alloc: Global) -> Result<(), Fail> {
    for table in [
        INDICATIONS.as_slice(),
        ZERO_SETTING.as_slice(),
        TRACKING.as_slice(),
        TARES.as_slice(),
        BRIDGE.as_slice(),
    ] {
        rows::<W>(rt, alloc, table)?;
    }
    Ok(())
}

#[test]
fn rows_over_a_ring(rt: HostRuntime) -> Result<(), Fail> {
    tables::<RingWindow>(&rt, rt.alloc())
}

#[test]
fn rows_over_two_queues(rt: HostRuntime) -> Result<(), Fail> {
    tables::<DequeWindow>(&rt, rt.alloc())
}
