// Channels that changes of properties call for: `ChannelSet`, and `StyleChangeSet::affected_channels` of matcher.rs.
#![tactic(auto)]

ghost use Rattle.std.specs.Prelude.{◌≡◌, length, eqb};
ghost use Rattle.bits.specs.Bits.{bit, bits_in};
ghost use Rattle.channels.specs.Channels.{channels_of, lowest_told, lowest_of};

use lent::words::word;

// A channel for each bit.
#[derive(Clone, Copy, Debug, PartialEq, Eq)]
pub struct ChannelSet(pub u32);

impl ChannelSet {
    pub const EMPTY: ChannelSet = ChannelSet(0);

    pub fn contains(self, channel: u32) -> bool
        ensures { result ≡ bit self.0 channel }
    {
        if 32 <= channel {
            return false;
        }
        (self.0 >> channel) & 1 == 1
    }

    pub fn is_empty(self) -> bool
        ensures { result ≡ eqb (length (bits_in self.0)) 0 }
    {
        self.0 == 0
    }

    // How many channels it names.
    pub fn len(self) -> u32
        ensures { result ≡ length (bits_in self.0) }
    {
        u32::count_ones(self.0)
    }

    // The lowest channel that it names.
    pub fn lowest(self) -> Option<u32>
        ensures { lowest_told result ≡ lowest_of (bits_in self.0) }
    {
        if self.0 == 0 {
            return None;
        }
        Some(u32::trailing_zeros(self.0))
    }
}

// `StyleChangeSet::affected_channels`: the masks of these properties, joined; mask p is that of property p.
pub fn affected_channels(ids: &[u16], masks: &[u32]) -> ChannelSet
    ensures { result.0 ≡ channels_of masks.now ids.now }
{
    let mut set = 0;
    for &id in ids {
        set |= word(masks, usize::from(id));
    }
    ChannelSet(set)
}
