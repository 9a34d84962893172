// Channel numbers and kilohertz, kept apart (document 01, "The log and its report"; 000, table 9). The fields are public and can
// hold anything, so every function tests what it is given.
#![tactic(auto)]

ghost use Rattle.std.specs.Prelude.{◌≡◌};
ghost use Rattle.band.specs.Band.{is_channel, is_frequency, numbered_of, kilohertz_of, channel_of, told_channel, told_kilohertz};

use answers::Refusal;

pub const LAST_CHANNEL: u8 = 204;

// A channel number, 1 to 204; 0 and 205 to 255 are reserved.
#[derive(Clone, Copy)]
pub struct Channel(pub u8);

// A frequency in kilohertz.
#[derive(Clone, Copy)]
pub struct Kilohertz(pub u32);

// The channel of a number. Refused: 11 for a number that is reserved or greater than 255.
impl TryFrom<u32> for Channel {
    type Error = Refusal;

    ghost try_from_gives = { λ number answer. told_channel answer ≡ numbered_of number };

    fn try_from(number: u32) -> Result<Channel, Refusal> {
        if is_channel(number) {
            Ok(Channel(number as u8))
        } else {
            Err(Refusal::OutsideRule)
        }
    }
}

// The frequency of a channel, 87,500 + 100 n kHz. Refused: 11 for a reserved number.
impl TryFrom<Channel> for Kilohertz {
    type Error = Refusal;

    ghost try_from_gives = { λ channel answer. told_kilohertz answer ≡ kilohertz_of channel };

    fn try_from(channel: Channel) -> Result<Kilohertz, Refusal> {
        let number = u32::from(channel.0);
        if is_channel(number) {
            Ok(Kilohertz(87500 + 100 * number))
        } else {
            Err(Refusal::OutsideRule)
        }
    }
}

// The channel of a frequency. Refused: 11 for a frequency of no channel.
impl TryFrom<Kilohertz> for Channel {
    type Error = Refusal;

    ghost try_from_gives = { λ kilohertz answer. told_channel answer ≡ channel_of kilohertz };

    fn try_from(kilohertz: Kilohertz) -> Result<Channel, Refusal> {
        let frequency = kilohertz.0;
        if is_frequency(frequency) {
            Ok(Channel(((frequency - 87500) / 100) as u8))
        } else {
            Err(Refusal::OutsideRule)
        }
    }
}

// Whether this is a channel number, 1 to 204.
pub fn is_channel(number: u32) -> bool
    ensures { result ≡ is_channel number }
{
    (1..=u32::from(LAST_CHANNEL)).contains(&number)
}

fn is_frequency(frequency: u32) -> bool
    ensures { result ≡ is_frequency frequency }
{
    (87600..=107900).contains(&frequency) && (frequency % 100 == 0)
}
