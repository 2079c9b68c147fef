//! The text of an indication.
ghost use Rattle.arrayvec.specs.ArrayString.{array_string_len};
ghost use Rattle.std.specs.Prelude.{◌≡◌, ◌≤◌, length};
ghost use Rattle.wb_instrument.specs.Setup.{IsSetup};
ghost use Rattle.wb_office.specs.Answer.{motion_word, text_of_indication, weights_text};
ghost use Rattle.wb_scale.specs.Indication.{IsIndicationInRange};

use arrayvec::ArrayString;
use wb_instrument::{Instrument, weight_field};
use wb_messages::TEXT_ROOM;
use wb_scale::Indicated;

/// Gross and net in kilograms, or why there are none.
pub(crate) fn indication_text(
    instrument: &Instrument,
    indicated: Indicated,
) -> ArrayString<TEXT_ROOM>
    requires setup { IsSetup instrument.now }
    requires load { IsIndicationInRange instrument.now indicated }
    ensures { result.bytes ≡ text_of_indication instrument.now indicated }
{
    match indicated {
        Indicated::NoLoad => text_of("NO LOAD"),
        Indicated::Over => text_of("OVERLOAD"),
        Indicated::Under => text_of("UNDERLOAD"),
        Indicated::Shown { gross, net, stable } => {
            let gross_kg = instrument.kilograms(gross as i16);
            weights(stable, gross_kg, instrument.kilograms(net as i16))
        }
    }
}

fn text_of(words: &str) -> ArrayString<TEXT_ROOM>
    requires { length words.now ≤ 32 }
    ensures value { result.bytes ≡ words.now }
    ensures fits { array_string_len result ≡ length words.now }
{
    let mut text = ArrayString::new();
    text.push_str(words);
    text
}

fn weights(stable: bool, gross_kg: i32, net_kg: i32) -> ArrayString<TEXT_ROOM>
    ensures { result.bytes ≡ weights_text stable gross_kg net_kg }
{
    let mut text = text_of(motion(stable));
    text.push_str(" G ");
    text.push_str(weight_field(gross_kg).as_str());
    text.push_str(" kg N ");
    text.push_str(weight_field(net_kg).as_str());
    text.push_str(" kg");
    text
}

fn motion(stable: bool) -> &'static str
    ensures value { result.now ≡ motion_word stable }
    ensures fits { length result.now ≤ 6 }
{
    if stable { "STABLE" } else { "MOVING" }
}
