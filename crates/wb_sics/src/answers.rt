//! The replies that the scale's answers give.
ghost use Rattle.std.specs.Prelude.{◌≡◌};
ghost use Rattle.wb_instrument.specs.Setup.{IsSetup};
ghost use Rattle.wb_scale.specs.Indication.{IsIndicationInRange};
ghost use Rattle.wb_sics.specs.Answers.{reply_to_preset, reply_to_tare, reply_to_weight, reply_to_weight_now, reply_to_zero};

use crate::reply::Reply;
use wb_instrument::Instrument;
use wb_scale::{Indicated, PresetAnswer, TareAnswer, ZeroAnswer};

/// The reply to `SI`.
pub(crate) fn weight_now(instrument: &Instrument, indicated: Indicated) -> Reply
    requires setup { IsSetup instrument.now }
    requires load { IsIndicationInRange instrument.now indicated }
    ensures { result ≡ reply_to_weight_now instrument.now indicated }
{
    match indicated {
        Indicated::NoLoad => Reply::WeightRefused,
        Indicated::Over => Reply::WeightOver,
        Indicated::Under => Reply::WeightUnder,
        Indicated::Shown {
            gross: _,
            net,
            stable,
        } => {
            let kg = instrument.kilograms(net as i16);
            if stable {
                Reply::WeightStable(kg)
            } else {
                Reply::WeightMoving(kg)
            }
        }
    }
}

/// The decided reply to `S`: where over, under or stable.
pub(crate) fn weight_reply(instrument: &Instrument, indicated: Indicated) -> Option<Reply>
    requires setup { IsSetup instrument.now }
    requires load { IsIndicationInRange instrument.now indicated }
    ensures { result ≡ reply_to_weight instrument.now indicated }
{
    match indicated {
        Indicated::NoLoad => None,
        Indicated::Over => Some(Reply::WeightOver),
        Indicated::Under => Some(Reply::WeightUnder),
        Indicated::Shown {
            gross: _,
            net,
            stable,
        } => {
            if stable {
                Some(Reply::WeightStable(instrument.kilograms(net as i16)))
            } else {
                None
            }
        }
    }
}

/// The decided reply to `Z`: where stable.
pub(crate) fn zero_reply(answer: ZeroAnswer) -> Option<Reply>
    ensures { result ≡ reply_to_zero answer }
{
    match answer {
        ZeroAnswer::Done => Some(Reply::ZeroDone),
        ZeroAnswer::NotStable => None,
        ZeroAnswer::Above => Some(Reply::ZeroAbove),
        ZeroAnswer::Below => Some(Reply::ZeroBelow),
    }
}

/// The decided reply to `T`: where stable.
pub(crate) fn tare_reply(answer: TareAnswer) -> Option<Reply>
    ensures { result ≡ reply_to_tare answer }
{
    match answer {
        TareAnswer::Done(kg) => Some(Reply::TareDone(kg)),
        TareAnswer::NotStable => None,
        TareAnswer::PresetInUse => Some(Reply::TareRefused),
        TareAnswer::Above => Some(Reply::TareAbove),
        TareAnswer::Below => Some(Reply::TareBelow),
    }
}

/// The reply to a preset tare.
pub(crate) fn preset_reply(answer: PresetAnswer) -> Reply
    ensures { result ≡ reply_to_preset answer }
{
    match answer {
        PresetAnswer::Done(kg) => Reply::TareValue(kg),
        PresetAnswer::WeighedInUse => Reply::PresetRefused,
        PresetAnswer::OutOfRange => Reply::PresetBad,
    }
}
