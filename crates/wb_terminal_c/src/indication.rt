//! What is indicated, as C reads it.
ghost use Rattle.std.specs.Prelude.{◌≡◌, pos};
ghost use Rattle.wb_instrument.specs.Setup.{IsSetup};
ghost use Rattle.wb_scale.specs.Indication.{IsIndicationInRange};
ghost use Rattle.wb_terminal_c.specs.Shown.{shown_indication, state_of, weights};

use wb_instrument::Instrument;
use wb_scale::Indicated;

/// What is indicated: 0 no load, 1 overload, 2 underload, 3 weights that aren't stable, 4 stable ones. Without weights both are
/// 0.
#[repr(C)]
#[derive(Drop)]
pub struct Indication {
    pub state: u32,
    pub gross_kg: i32,
    pub net_kg: i32,
}

/// What is indicated, with the weights in kilograms.
pub(crate) fn indication_of(instrument: &Instrument, indicated: Indicated) -> Indication
    requires setup { IsSetup instrument.now }
    requires load { IsIndicationInRange instrument.now indicated }
    ensures { result ≡ shown_indication instrument.now indicated }
{
    match indicated {
        Indicated::NoLoad => without_weights(0),
        Indicated::Over => without_weights(1),
        Indicated::Under => without_weights(2),
        Indicated::Shown { gross, net, stable } => Indication {
            state: state_number(stable),
            gross_kg: instrument.kilograms(gross as i16),
            net_kg: instrument.kilograms(net as i16),
        },
    }
}

/// The state of weights.
fn state_number(stable: bool) -> u32
    ensures { result ≡ state_of stable }
{
    if stable { 4 } else { 3 }
}

fn without_weights(state: u32) -> Indication
    ensures { result ≡ weights state (pos 0) (pos 0) }
{
    Indication {
        state,
        gross_kg: 0,
        net_kg: 0,
    }
}
